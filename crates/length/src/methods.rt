// Building a data length, and what follows from one.
ghost use Rattle.std.specs.Prelude.{◌≡◌, ◌+◌, ◌/◌, ◌%◌, ◌≤◌};
ghost use Rattle.length.specs.Lawful.{frame_octets, pieces, exchanges};
ghost use Rattle.length.specs.Lengths.{Built};

use crate::DataLength;
use codes::refusal::Refusal;

impl DataLength {
    // The length of that many octets, or a refusal where it is not lawful.
    pub fn new(octets: usize) -> Result<DataLength, Refusal>
        ensures { Built octets result }
    {
        if (2..=32).contains(&octets) && octets.is_multiple_of(2) {
            Ok(DataLength { octets })
        } else {
            Err(Refusal::UnlawfulLength)
        }
    }

    pub fn octets(self) -> usize
        ensures value { result ≡ self.octets }
        ensures low_bound { 2 ≤ result }
        ensures high_bound { result ≤ 32 }
        ensures even { result % 2 ≡ 0 }
    {
        self.octets
    }

    // How many octets a frame has.
    pub fn frame_octets(self) -> usize
        ensures { result ≡ frame_octets self.octets }
    {
        2 * self.octets + 3
    }

    // How many parts a frame has: pairs of data octets, each with its CRC.
    pub fn parts(self) -> u16
        ensures value { result ≡ self.octets / 2 }
        ensures high_bound { result ≤ 16 }
    {
        (self.octets / 2) as u16
    }

    // How many pieces of this length carry so many octets.
    #[tactic(auto, using(crate::proofs::Rounding::rounded_up))]
    pub fn pieces(self, octets: u32) -> usize
        ensures value { result ≡ pieces self.octets octets }
        ensures high_bound { result ≤ octets + 31 }
    {
        (octets as usize).div_ceil(self.octets)
    }

    // How many exchanges bring a connection back after a reset of its master, until the slave's outputs are set.
    pub fn exchanges(self, user_octets: u16) -> usize
        ensures { result ≡ exchanges self.octets user_octets }
    {
        3 + self.pieces(4) + self.pieces(6 + u32::from(user_octets))
    }
}
