ghost use Rattle.std.specs.Prelude.{◌≡◌, ℕ, List};
ghost use Rattle.profile.specs.Numbers.{Ranges};
ghost use Rattle.profile.specs.declared.verdict.Verdict.{Verdict};

use crate::verdict::Verdict;

// The parameter rules of a module.
pub trait Profile {
    // How many user octets there are, and the lowest and the highest watchdog time in milliseconds.
    const USER_OCTETS: u16;

    const LOWEST_WATCHDOG: u16;

    const HIGHEST_WATCHDOG: u16;

    // The same numbers, for contracts and proofs.
    ghost USER_OCTETS: { ℕ };

    ghost LOWEST_WATCHDOG: { ℕ };

    ghost HIGHEST_WATCHDOG: { ℕ };

    // The verdict on the user octets, by the octets alone.
    ghost judged: { List ℕ → Verdict };

    fn verdict(&self, user: &[u8]) -> Verdict
        ensures { result ≡ judged user.now };

    // The numbers keep the ranges of a sealed plan.
    ghost ranges: { Ranges USER_OCTETS LOWEST_WATCHDOG HIGHEST_WATCHDOG };
}
