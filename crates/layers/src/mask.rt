// The mask layer: it passes down the released octets ANDed with its own.
ghost use Rattle.std.specs.Prelude.{◌≡◌};
ghost use Rattle.layers.specs.Masked.{masked};
ghost use Rattle.layers.specs.Masks.{mask_over, mask_released, mask_cleared, mask_told};
ghost use Rattle.layers.specs.Masking.{masked_within};
ghost use Rattle.std.proofs.Common.{rules};

use codes::refusal::Refusal;
use sink::Sink;
use std::array;

#[derive(Drop)]
struct MaskOctets {
    octets: [u8; 32],
}

impl MaskOctets {
    // The octets ANDed with those of the mask, one by one.
    fn masked(&self, octets: &[u8; 32]) -> [u8; 32]
        ensures { result ≡ masked octets.now self.now.octets }
    {
        array::from_fn(|i| octets[i] & self.octets[i])
    }
}

#[derive(Drop)]
pub struct Mask<S: Sink> {
    mask: MaskOctets,
    below: S,
}

impl<S: Sink> Mask<S> {
    // The sink, seen through a mask that stays.
    pub fn new(octets: [u8; 32], below: S) -> Mask<S>
        ensures { result ≡ mask_over octets below }
    {
        Mask {
            mask: MaskOctets { octets },
            below,
        }
    }

    // Takes the layer away, and gives back the sink below as it is.
    pub fn into_below(self) -> S
        ensures { result ≡ self.below }
    {
        let Mask { mask: _, below } = self;
        below
    }
}

impl<S: Sink> Sink for Mask<S> {
    ghost shown = { λ s. S.Sink.shown s.below };

    ghost up = { λ s. S.Sink.up s.below };

    ghost would = { λ s o. S.Sink.would s.below (masked o s.mask.octets) };

    ghost released = { mask_released S.Sink };

    ghost cleared = { mask_cleared S.Sink };

    ghost told = { mask_told S.Sink };

    ghost effects = { Prim.search rules };

    ghost within = { λ s o i k h. let m = s.mask.octets in masked_within o m i k (S.Sink.within s.below (masked o m) i k h) };

    fn release(&mut self, octets: &[u8; 32]) -> Result<(), Refusal> {
        let passed = self.mask.masked(octets);
        self.below.release(&passed)
    }

    fn clear(&mut self) {
        self.below.clear();
    }

    fn feedback(&mut self, working: bool) {
        self.below.feedback(working);
    }

    fn shows(&self) -> [u8; 32] {
        self.below.shows()
    }

    fn is_up(&self) -> bool {
        self.below.is_up()
    }
}
