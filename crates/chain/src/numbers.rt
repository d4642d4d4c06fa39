// The numbers by which a frame follows the frames before it.
ghost use Rattle.std.specs.Prelude.{◌≡◌};
ghost use Rattle.frame.specs.Commands.{octet};
ghost use Rattle.chain.specs.Written.{Written};
ghost use Rattle.chain.specs.Numbers.{fresh, after_sending, taken, after_taking};
ghost use Rattle.chain.specs.Chain.{InStep, Chains, Differs};

use crate::choice::{Trial, next};
use frame::command::Command;
use frame::outgoing::Outgoing;
use frame::received::Received;
use length::DataLength;

// What one end keeps: the next numbers to write and to read; the CRC_0 of the latest frame either way; and the CRC_0
// of its latest frame written and of its latest frame taken.
#[derive(Clone, Copy, Debug, PartialEq, Eq)]
pub struct Numbers {
    pub own: u16,
    pub peer: u16,
    pub last: u16,
    pub old_own: u16,
    pub old_peer: u16,
}

impl Numbers {
    pub fn fresh() -> Numbers
        ensures value { result ≡ fresh }
        ensures in_step { InStep result result }
    {
        Numbers {
            own: 1,
            peer: 1,
            last: 0,
            old_own: 0,
            old_peer: 0,
        }
    }

    // Writes the next frame.
    pub fn write(
        &mut self,
        size: DataLength,
        command: Command,
        id: u16,
        octets: &[u8; 32],
    ) -> Outgoing
        ensures frame { Written self.old size id (octet command) octets.now result }
        ensures numbers { self.new ≡ after_sending self.old id (octet command) octets.now }
        ensures chain { Chains self.old size.octets id (octet command) octets.now }
        ensures differs { Differs self.old id (octet command) octets.now }
    {
        let trial = Trial {
            tried: self.own,
            old: self.old_own,
            last: self.last,
            id,
            command: command.octet(),
            first: octets[0],
            second: octets[1],
        };
        let choice = trial.choose();
        self.own = next(choice.number);
        self.last = choice.crc;
        self.old_own = choice.crc;
        Outgoing::new(size, choice.shared, octets)
    }

    // Takes a frame whose CRCs are all right, and answers its number; otherwise changes nothing.
    pub fn take(&mut self, frame: Received<'_>) -> Option<u16>
        ensures number { result ≡ taken self.old frame.entry.size.octets frame.entry.octets.now }
        ensures numbers { self.new ≡ after_taking self.old frame.entry.size.octets frame.entry.octets.now }
    {
        let trial = Trial {
            tried: self.peer,
            old: self.old_peer,
            last: self.last,
            id: frame.id(),
            command: frame.command(),
            first: frame.first(),
            second: frame.second(),
        };
        let choice = trial.choose();
        if !frame.is_right(choice.shared) {
            return None;
        }
        self.peer = next(choice.number);
        self.last = choice.crc;
        self.old_peer = choice.crc;
        Some(choice.number)
    }
}
