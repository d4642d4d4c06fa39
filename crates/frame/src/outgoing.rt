// A frame in writing.
ghost use Rattle.std.specs.Prelude.{◌≡◌, ◌-◌, ◌≤◌, ◌++◌, length, take, drop, replicate};
ghost use Rattle.length.specs.Lawful.{frame_octets};
ghost use Rattle.frame.specs.Layout.{filled};
ghost use Rattle.frame.specs.Writing.{Put, front};
ghost use Rattle.frame.specs.ReadsBack.{Back};

use codes::refusal::Refusal;
use crc::part::Shared;
use length::DataLength;

// The octets of a written frame, at the front of room for the longest one.
// The array is as long as the longest frame, and the size stands beside it: firmware has no heap.
#[derive(Clone, Copy)]
pub struct Outgoing {
    octets: [u8; 67],
    size: DataLength,
}

impl Outgoing {
    // The frame whose data octets are the first of those given, as many as the data length says.
    pub fn new(size: DataLength, shared: Shared, given: &[u8; 32]) -> Outgoing
        ensures octets { result.octets ≡ filled size.octets shared.command shared.id shared.register.bits given.now }
        ensures size { result.size ≡ size }
        ensures reads_back { Back size shared given.now }
    {
        let mut octets = [0u8; 67];
        octets[0] = shared.command();
        // By place: once `chunks_exact_mut` has lent the array, a proof knows no element of it.
        for (i, pair) in (0..size.parts()).zip(given.chunks_exact(2)) {
            let crc = shared.part(i, pair[0], pair[1]);
            let at = 4 * i as usize + 1;
            octets[at..at + 2].copy_from_slice(pair);
            octets[at + 2..at + 4].copy_from_slice(&crc.to_le_bytes());
        }
        let at = 2 * size.octets() + 1;
        octets[at..at + 2].copy_from_slice(&shared.id().to_le_bytes());
        Outgoing { octets, size }
    }

    // The octets of the frame.
    pub fn octets(&self) -> &[u8]
        ensures { result.now ≡ take (frame_octets self.now.size.octets) self.now.octets }
    {
        &self.octets[..self.size.frame_octets()]
    }

    // Copies the frame to the front of a buffer that has room for it.
    pub fn fill(&self, buffer: &mut [u8])
        requires { frame_octets self.now.size.octets ≤ length buffer.old }
        ensures { buffer.new ≡ front self.now ++ drop (frame_octets self.now.size.octets) buffer.old }
    {
        copy_to_front(self.octets(), buffer);
    }
}

// Copies a frame to the front of a buffer, or refuses a buffer that is shorter.
pub fn put(octets: &[u8], out: &mut [u8]) -> Result<(), Refusal>
    ensures { Put octets.now out.old out.new result }
{
    if out.len() < octets.len() {
        return Err(Refusal::ShortReplyBuffer);
    }
    copy_to_front(octets, out);
    Ok(())
}

// Up to 32 octets with zeros behind them, as frames are given.
pub fn with_zeros(octets: &[u8]) -> [u8; 32]
    requires { length octets.now ≤ 32 }
    ensures { result ≡ octets.now ++ replicate (32 - length octets.now) 0 }
{
    let mut room = [0; 32];
    copy_to_front(octets, &mut room);
    room
}

fn copy_to_front(octets: &[u8], buffer: &mut [u8])
    requires { length octets.now ≤ length buffer.old }
    ensures { buffer.new ≡ octets.now ++ drop (length octets.now) buffer.old }
{
    buffer[..octets.len()].copy_from_slice(octets);
}
