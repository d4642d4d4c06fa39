// The output stage: two heater contactors that close only under an interlock. In octet 0 bit 0 is the upper heater, bit 1
// the lower one and bit 7 the interlock; a release without the interlock opens both.
// It implements `Sink` itself, as a module programmer whose stage has another form does: over `Outputs` of `sinks` it would be shorter,
// and no longer show the interface.
ghost use Rattle.std.specs.Prelude.{◌≡◌, slice_index, nat_le};
ghost use Rattle.heater_module.specs.Heaters.{interlocked, octets_of, new_stage, stage_released, stage_cleared, stage_told};
ghost use Rattle.sink.proofs.Lits.{first_within};
ghost use Rattle.heater_module.specs.Interlocking.{within_octet};
ghost use Rattle.std.proofs.Common.{rules};

use codes::refusal::Refusal;
use sink::Sink;

#[derive(Drop)]
pub struct HeaterStage {
    // octet 0 as it is shown
    contacts: u8,
    up: bool,
}

impl HeaterStage {
    // A stage that is up, with its contactors open.
    pub fn new() -> HeaterStage
        ensures { result ≡ new_stage }
    {
        HeaterStage {
            contacts: 0,
            up: true,
        }
    }
}

// What the contactors make of octet 0.
fn interlock(octet: u8) -> u8
    ensures { result ≡ interlocked octet }
{
    if octet >= 0x80 { octet & 0x83 } else { 0 }
}

impl Sink for HeaterStage {
    ghost shown = { λ s. octets_of s.contacts };

    ghost up = { λ s. s.up };

    ghost would = { λ _ o. octets_of (interlocked (slice_index o 0)) };

    ghost released = { stage_released };

    ghost cleared = { stage_cleared };

    ghost told = { stage_told };

    ghost effects = { Prim.search rules };

    ghost within = { λ s o. let n = slice_index o 0 in first_within (interlocked n) o (within_octet (nat_le 128 n) n) };

    fn release(&mut self, octets: &[u8; 32]) -> Result<(), Refusal> {
        if !self.up {
            self.contacts = 0;
            return Err(Refusal::SinkDown);
        }
        self.contacts = interlock(octets[0]);
        Ok(())
    }

    fn clear(&mut self) {
        self.contacts = 0;
    }

    fn feedback(&mut self, working: bool) {
        self.up = working;
        if !working {
            self.contacts = 0;
        }
    }

    fn shows(&self) -> [u8; 32] {
        let mut octets = [0; 32];
        octets[0] = self.contacts;
        octets
    }

    fn is_up(&self) -> bool {
        self.up
    }
}
