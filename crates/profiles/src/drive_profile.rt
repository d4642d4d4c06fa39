// The drive's parameters are two numbers, low octet first: the first from 1 to 6,000, the second from 1 to 10,000.
ghost use Rattle.profiles.specs.DriveRules.{drive_verdict};
ghost use Rattle.std.proofs.Common.{rules};

use profile::{Profile, Verdict};

#[derive(Clone, Copy)]
pub struct DriveProfile;

impl Profile for DriveProfile {
    const USER_OCTETS: u16 = 4;

    const LOWEST_WATCHDOG: u16 = 2;

    const HIGHEST_WATCHDOG: u16 = 1000;

    ghost USER_OCTETS = { 4 };

    ghost LOWEST_WATCHDOG = { 2 };

    ghost HIGHEST_WATCHDOG = { 1000 };

    ghost judged = { drive_verdict };

    ghost ranges = { Prim.search rules };

    fn verdict(&self, user: &[u8]) -> Verdict {
        let [first_low, first_high, second_low, second_high] = *user else {
            return Verdict::Invalid;
        };
        if !(1..=6000).contains(&u16::from_le_bytes([first_low, first_high])) {
            return Verdict::device(128);
        }
        if !(1..=10000).contains(&u16::from_le_bytes([second_low, second_high])) {
            return Verdict::device(129);
        }
        Verdict::Accepted
    }
}
