// The parameters: the target temperature in degrees, a two-octet number with the low octet first, from 30 to 350, and the
// power step, one octet, from 1 to 4.
ghost use Rattle.heater_module.specs.HeaterRules.{heater_verdict};
ghost use Rattle.std.proofs.Common.{rules};

use profile::{Profile, Verdict};

#[derive(Clone, Copy)]
pub struct HeaterProfile;

impl Profile for HeaterProfile {
    const USER_OCTETS: u16 = 3;

    const LOWEST_WATCHDOG: u16 = 20;

    const HIGHEST_WATCHDOG: u16 = 5000;

    ghost USER_OCTETS = { 3 };

    ghost LOWEST_WATCHDOG = { 20 };

    ghost HIGHEST_WATCHDOG = { 5000 };

    ghost judged = { heater_verdict };

    ghost ranges = { Prim.search rules };

    fn verdict(&self, user: &[u8]) -> Verdict {
        let [target_low, target_high, step] = *user else {
            return Verdict::Invalid;
        };
        if !(30..=350).contains(&u16::from_le_bytes([target_low, target_high])) {
            return Verdict::device(130);
        }
        if !(1..=4).contains(&step) {
            return Verdict::device(131);
        }
        Verdict::Accepted
    }
}
