// A drive of four switches: it shows bits 0 to 3 of octet 0.
ghost use Rattle.std.specs.Prelude.{slice_index, slice_index_or};
ghost use Rattle.sinks.specs.Drives.{octet_of, octets_of, switches_of};
ghost use Rattle.sink.proofs.Lits.{first_within, lit_and_left, same_bit};
ghost use Rattle.sinks.specs.Switching.{masked};
ghost use Rattle.std.proofs.Common.{rules};

use crate::outputs::Outputs;
use crate::stage::Stage;

// Four fields, no plainer as an array: each switch has its name.
#[derive(Drop)]
pub struct Switches {
    first: bool,
    second: bool,
    third: bool,
    fourth: bool,
}

impl Outputs for Switches {
    ghost set_by = { λ o. switches_of (slice_index o 0) };

    ghost octets_of = { octets_of };

    ghost off = { Prim.search rules };

    ghost within = { λ o.
        let n = slice_index_or o 0 0 in
        first_within (octet_of (switches_of n)) o (λ k h. lit_and_left n 15 k (same_bit (masked n) k h)) };

    // As the four low bits of octet 0 say.
    fn new(octets: &[u8; 32]) -> Switches {
        let octet = octets[0];
        Switches {
            first: octet % 2 == 1,
            second: octet / 2 % 2 == 1,
            third: octet / 4 % 2 == 1,
            fourth: octet / 8 % 2 == 1,
        }
    }

    fn octets(&self) -> [u8; 32] {
        let mut octets = [0; 32];
        octets[0] = u8::from(self.first)
            + 2 * u8::from(self.second)
            + 4 * u8::from(self.third)
            + 8 * u8::from(self.fourth);
        octets
    }
}

pub type Drive = Stage<Switches>;
