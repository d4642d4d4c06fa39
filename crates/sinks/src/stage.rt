// An output stage: outputs that the released octets set while it is up. It starts up, with its outputs off.
ghost use Rattle.std.specs.Prelude.{◌≡◌};
ghost use Rattle.sinks.specs.Stages.{new_stage, stage_released, stage_cleared, stage_told};
ghost use Rattle.std.proofs.Common.{rules};

use crate::outputs::Outputs;
use codes::refusal::Refusal;
use sink::Sink;

#[derive(Drop)]
pub struct Stage<O: Outputs> {
    outputs: O,
    up: bool,
}

impl<O: Outputs> Stage<O> {
    // A stage that is up and has its outputs off.
    pub fn new() -> Stage<O>
        ensures { result ≡ new_stage O.Outputs }
    {
        Stage {
            outputs: O::new(&[0; 32]),
            up: true,
        }
    }
}

impl<O: Outputs> Sink for Stage<O> {
    ghost shown = { λ s. O.Outputs.octets_of s.outputs };

    ghost up = { λ s. s.up };

    ghost would = { λ _ o. O.Outputs.octets_of (O.Outputs.set_by o) };

    ghost released = { stage_released O.Outputs };

    ghost cleared = { stage_cleared O.Outputs };

    ghost told = { stage_told O.Outputs };

    ghost effects = { Prim.search rules };

    ghost within = { λ _ o. O.Outputs.within o };

    fn release(&mut self, octets: &[u8; 32]) -> Result<(), Refusal> {
        if !self.up {
            self.clear();
            return Err(Refusal::SinkDown);
        }
        self.outputs = O::new(octets);
        Ok(())
    }

    fn clear(&mut self) {
        self.outputs = O::new(&[0; 32]);
    }

    fn feedback(&mut self, working: bool) {
        self.up = working;
        if !working {
            self.clear();
        }
    }

    fn shows(&self) -> [u8; 32] {
        self.outputs.octets()
    }

    fn is_up(&self) -> bool {
        self.up
    }
}
