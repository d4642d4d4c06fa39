// Which number a frame goes with, in writing and in reading alike.
ghost use Rattle.std.specs.Prelude.{◌≡◌};
ghost use Rattle.chain.specs.Numbers.{next, passes};
ghost use Rattle.chain.specs.Choosing.{At, chosen, Differs};

use crc::part::Shared;
use frame::command::Command;

// The number that was chosen, the CRC_0 that it gives, and what the parts of the frame share.
#[derive(Clone, Copy)]
pub struct Choice {
    pub number: u16,
    pub crc: u16,
    pub shared: Shared,
}

// What a number is chosen by: the number to try, the old CRC_0, the latest CRC_0 either way, and the frame's content.
// The command is an octet, since the CRCs of a frame that came in are over whatever octet stands there.
#[derive(Clone, Copy)]
pub struct Trial {
    pub tried: u16,
    pub old: u16,
    pub last: u16,
    pub id: u16,
    pub command: u8,
    pub first: u8,
    pub second: u8,
}

impl Trial {
    // The number tried, or the one after it where its CRC_0 would be the old one.
    #[tactic(auto, using(crate::proofs::Passing::next_apart), unfolding(crate::specs::Numbers::used))]
    pub fn choose(self) -> Choice
        ensures at { At self (chosen self) result }
        ensures differs { Differs self result }
    {
        let choice = self.at(self.tried);
        if passes(self.command) && choice.crc == self.old {
            self.at(next(self.tried))
        } else {
            choice
        }
    }

    fn at(self, number: u16) -> Choice
        ensures { At self number result }
    {
        let shared = Shared::new(self.last, self.id, number, self.command);
        let crc = shared.part(0, self.first, self.second);
        Choice {
            number,
            crc,
            shared,
        }
    }
}

// The number after n.
pub fn next(n: u16) -> u16
    ensures { result ≡ next n }
{
    n.checked_add(1).unwrap_or(1)
}

// Whether a frame with this command passes over a number.
fn passes(command: u8) -> bool
    ensures { result ≡ passes command }
{
    !matches!(
        Command::try_from(command),
        Ok(Command::Reset | Command::Session)
    )
}
