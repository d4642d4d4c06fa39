// A bank of 256 outputs: it shows the released octets whole.
ghost use Rattle.sinks.specs.Banks.{whole};
ghost use Rattle.std.proofs.Common.{rules};

use crate::outputs::Outputs;
use crate::stage::Stage;

#[derive(Drop)]
pub struct Whole {
    octets: [u8; 32],
}

impl Outputs for Whole {
    ghost set_by = { whole };

    ghost octets_of = { λ w. w.octets };

    ghost off = { Prim.search rules };

    ghost within = { Prim.search rules };

    fn new(octets: &[u8; 32]) -> Whole {
        Whole { octets: *octets }
    }

    fn octets(&self) -> [u8; 32] {
        self.octets
    }
}

pub type Bank = Stage<Whole>;
