// The bank's parameter is one number, from 10 to 3,000, low octet first.
ghost use Rattle.profiles.specs.BankRules.{bank_verdict};
ghost use Rattle.std.proofs.Common.{rules};

use profile::{Profile, Verdict};

#[derive(Clone, Copy)]
pub struct BankProfile;

impl Profile for BankProfile {
    const USER_OCTETS: u16 = 2;

    const LOWEST_WATCHDOG: u16 = 5;

    const HIGHEST_WATCHDOG: u16 = 10000;

    ghost USER_OCTETS = { 2 };

    ghost LOWEST_WATCHDOG = { 5 };

    ghost HIGHEST_WATCHDOG = { 10000 };

    ghost judged = { bank_verdict };

    ghost ranges = { Prim.search rules };

    fn verdict(&self, user: &[u8]) -> Verdict {
        match *user {
            [low, high] if (10..=3000).contains(&u16::from_le_bytes([low, high])) => {
                Verdict::Accepted
            }
            _ => Verdict::Invalid,
        }
    }
}
