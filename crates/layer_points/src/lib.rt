// Points of the layers over the named sinks. What each stack shows is proved as an equation, and then run.
#![tactic(auto)]

ghost use Rattle.std.specs.Prelude.{◌≡◌, [], ◌∷◌, replicate};

use layers::{HoldOff, Mask};
use sink::Sink;
use sinks::{Bank, Drive};

const FULL: [u8; 32] = [0xFF; 32];

const LOW_HALF: [u8; 32] = [0x0F; 32];

// A mask of 0x0F over a bank: 0xFF shows 0x0F.
pub fn masked_bank() -> [u8; 32]
    ensures { result ≡ replicate 32 15 }
{
    let mut stack = Mask::new(LOW_HALF, Bank::new());
    let _ = stack.release(&FULL);
    stack.shows()
}

// A hold-off of 2 over a bank: the third accepted release shows. What is shown after each of the three.
pub fn held_bank() -> [[u8; 32]; 3]
    ensures { result ≡ replicate 32 0 ∷ replicate 32 0 ∷ replicate 32 255 ∷ [] }
{
    let mut stack = HoldOff::new(2, Bank::new());
    let _ = stack.release(&FULL);
    let first = stack.shows();
    let _ = stack.release(&FULL);
    let second = stack.shows();
    let _ = stack.release(&FULL);
    [first, second, stack.shows()]
}

// Refused releases do not count: after two of them the first accepted one is still held off.
pub fn refused_releases() -> [u8; 32]
    ensures { result ≡ replicate 32 0 }
{
    let mut stack = HoldOff::new(1, Bank::new());
    stack.feedback(false);
    let _ = stack.release(&FULL);
    let _ = stack.release(&FULL);
    stack.feedback(true);
    let _ = stack.release(&FULL);
    stack.shows()
}

// What any stack shows at the second release.
fn second_release<S: Sink + Drop>(mut stack: S) -> [u8; 32]
    ensures { result ≡ S.shown (S.released (S.released stack FULL) FULL) }
{
    let _ = stack.release(&FULL);
    let _ = stack.release(&FULL);
    stack.shows()
}

// A mask over a hold-off of 1 over a drive, at the second release.
pub fn mask_over_hold_off() -> [u8; 32]
    ensures { result ≡ 6 ∷ replicate 31 0 }
{
    second_release(Mask::new([0x36; 32], HoldOff::new(1, Drive::new())))
}

// The same layers the other way round show the same.
pub fn hold_off_over_mask() -> [u8; 32]
    ensures { result ≡ 6 ∷ replicate 31 0 }
{
    second_release(HoldOff::new(1, Mask::new([0x36; 32], Drive::new())))
}

#[cfg(test)]
mod tests {
    use super::*;

    #[test]
    fn single_layers(rt: HostRuntime) {
        assert!(rt; masked_bank() == LOW_HALF);
        assert!(rt; held_bank() == [[0; 32], [0; 32], FULL]);
        assert!(rt; refused_releases() == [0; 32]);
    }

    #[test]
    fn layers_over_layers(rt: HostRuntime) {
        let mut expected = [0; 32];
        expected[0] = 6;
        assert!(rt; mask_over_hold_off() == expected);
        assert!(rt; hold_off_over_mask() == expected);
    }
}
