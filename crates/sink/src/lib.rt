// The interface of an output stage: what it shows, whether it is up, and what each call makes of it.
#![tactic(auto)]

ghost use Rattle.std.specs.Prelude.{◌≡◌, ℕ, Bool, List};
ghost use Rattle.sink.specs.Octets.{Within};
ghost use Rattle.sink.specs.Effects.{Effects, answer};

use codes::refusal::Refusal;

pub trait Sink {
    // The meaning of a sink: the 32 octets that it shows, whether it is up, and what it would show for any 32 octets
    // released now.
    ghost shown: { Self → List ℕ };

    ghost up: { Self → Bool };

    ghost would: { Self → List ℕ → List ℕ };

    // The sink that each call leaves behind.
    ghost released: { Self → List ℕ → Self };

    ghost cleared: { Self → Self };

    ghost told: { Self → Bool → Self };

    // Shows what the sink would show for the octets; where it is down that is refused, and zeros are shown.
    fn release(&mut self, octets: &[u8; 32]) -> Result<(), Refusal>
        ensures sink { self.new ≡ released self.old octets.now }
        ensures answer { result ≡ answer (up self.old) };

    // Shows zeros, and stays up or down.
    fn clear(&mut self)
        ensures { self.new ≡ cleared self.old };

    // Sets the sink up or down. Told down, it shows zeros; told up, the shown octets stay.
    fn feedback(&mut self, working: bool)
        ensures { self.new ≡ told self.old working };

    // The octets shown.
    fn shows(&self) -> [u8; 32]
        ensures { result ≡ shown self.now };

    // Whether the sink is up.
    fn is_up(&self) -> bool
        ensures { result ≡ up self.now };

    // What the calls do to the octets shown and to up.
    ghost effects: { Effects shown up would released cleared told };

    // A bit that the sink would show is set in the released octets.
    ghost within: { (s : Self) (o : List ℕ) → Within (would s o) o };
}
