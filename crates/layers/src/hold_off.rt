// The hold-off layer: after its making, a clear or a down feedback it passes zeros down for its first k accepted releases.
ghost use Rattle.std.specs.Prelude.{◌≡◌, ◌==◌};
ghost use Rattle.layers.specs.HoldOffs.{passed, hold_off_over, hold_off_released, hold_off_cleared, hold_off_told};
ghost use Rattle.layers.specs.HoldingOff.{either_within};
ghost use Rattle.std.proofs.Common.{rules};

use codes::refusal::Refusal;
use sink::Sink;

#[derive(Drop)]
pub struct HoldOff<S: Sink> {
    k: u8,
    // how many accepted releases are still to pass zeros down
    count: u8,
    below: S,
}

impl<S: Sink> HoldOff<S> {
    // The sink, held off for k accepted releases.
    pub fn new(k: u8, below: S) -> HoldOff<S>
        ensures { result ≡ hold_off_over k below }
    {
        HoldOff { k, count: k, below }
    }

    // Takes the layer away, and gives back the sink below as it is.
    pub fn into_below(self) -> S
        ensures { result ≡ self.below }
    {
        let HoldOff {
            k: _,
            count: _,
            below,
        } = self;
        below
    }
}

impl<S: Sink> Sink for HoldOff<S> {
    ghost shown = { λ s. S.Sink.shown s.below };

    ghost up = { λ s. S.Sink.up s.below };

    ghost would = { λ s o. S.Sink.would s.below (passed s.count o) };

    ghost released = { hold_off_released S.Sink };

    ghost cleared = { hold_off_cleared S.Sink };

    ghost told = { hold_off_told S.Sink };

    ghost effects = { Prim.search rules };

    ghost within = { λ s o i k h. either_within (s.count == 0) o i k (S.Sink.within s.below (passed s.count o) i k h) };

    fn release(&mut self, octets: &[u8; 32]) -> Result<(), Refusal> {
        if self.count == 0 {
            return self.below.release(octets);
        }
        self.below.release(&[0; 32])?;
        self.count -= 1;
        Ok(())
    }

    fn clear(&mut self) {
        self.below.clear();
        self.count = self.k;
    }

    fn feedback(&mut self, working: bool) {
        self.below.feedback(working);
        if !working {
            self.count = self.k;
        }
    }

    fn shows(&self) -> [u8; 32] {
        self.below.shows()
    }

    fn is_up(&self) -> bool {
        self.below.is_up()
    }
}
