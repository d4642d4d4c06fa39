// What stands at the outputs of a stage: it is set by released octets, and shows octets.
ghost use Rattle.std.specs.Prelude.{◌≡◌, ℕ, List};
ghost use Rattle.sink.specs.Octets.{zeros, Within};

pub trait Outputs: Drop {
    // The outputs as released octets set them, and the octets that outputs show.
    ghost set_by: { List ℕ → Self };

    ghost octets_of: { Self → List ℕ };

    fn new(octets: &[u8; 32]) -> Self
        ensures { result ≡ set_by octets.now };

    fn octets(&self) -> [u8; 32]
        ensures { result ≡ octets_of self.now };

    // Set by zeros, they show zeros.
    ghost off: { octets_of (set_by zeros) ≡ zeros };

    // A bit that they show is set in the released octets.
    ghost within: { (o : List ℕ) → Within (octets_of (set_by o)) o };
}
