// What an end keeps of its connection: its numbers, what it sends in data frames, and its watchdog.
ghost use Rattle.std.specs.Prelude.{◌≡◌};
ghost use Rattle.std.specs.Result.{result_err};
ghost use Rattle.frame.specs.Commands.{octet};
ghost use Rattle.frame.specs.Reading.{id as id-in-frame};
ghost use Rattle.frame.specs.declared.command.Command.TheVariants.{Reset};
ghost use Rattle.chain.specs.Numbers.{fresh};
ghost use Rattle.chain.specs.Written.{Written};
ghost use Rattle.shared_end.specs.Checks.{short, crc_fault, id_fault};
ghost use Rattle.shared_end.specs.Data.{carried, DataWritten, after_data};
ghost use Rattle.shared_end.specs.Link.{coded, numbered, new_link, freshened, expires, counted, after_writing, after_reading, Setting};

use crate::data_command::DataCommand;
use chain::numbers::Numbers;
use codes::refusal::Refusal;
use faults::fault::Fault;
use frame::command::Command;
use frame::outgoing::{Outgoing, with_zeros};
use frame::received::Received;
use length::DataLength;

#[derive(Clone, Copy)]
pub struct Link {
    pub size: DataLength,
    pub numbers: Numbers,
    // the octets set, with zeros behind them: an array, since firmware has no heap
    pub outputs: [u8; 32],
    pub command: DataCommand,
    // the watchdog time, and the ticks that are left of it
    pub watchdog: u16,
    pub left: u16,
}

impl Link {
    // A link of a connection that was not used yet.
    pub fn new(size: DataLength, watchdog: u16) -> Link
        ensures { result ≡ new_link size watchdog }
    {
        Link {
            size,
            numbers: Numbers::fresh(),
            outputs: [0; 32],
            command: DataCommand::FailSafeData,
            watchdog,
            left: watchdog,
        }
    }

    // Fresh numbers, and data frames for the safe state. The octets set are kept, and the watchdog time starts anew.
    pub fn freshen(&mut self)
        ensures { self.new ≡ freshened self.old }
    {
        self.numbers = Numbers::fresh();
        self.command = DataCommand::FailSafeData;
        self.left = self.watchdog;
    }

    // Counts a tick of a watchdog that runs, and answers whether its time is over.
    pub fn tick(&mut self, runs: bool) -> bool
        ensures over { result ≡ expires runs self.old }
        ensures link { self.new ≡ counted runs self.old }
    {
        let over = runs & (self.left <= 1);
        if runs & !over {
            self.left -= 1;
        }
        over
    }

    // Writes the next frame. That starts the watchdog time anew.
    pub fn write(&mut self, command: Command, id: u16, octets: &[u8; 32]) -> Outgoing
        ensures frame { Written self.old.numbers self.old.size id (octet command) octets.now result }
        ensures link { self.new ≡ after_writing self.old id command octets.now }
    {
        self.left = self.watchdog;
        self.numbers.write(self.size, command, id, octets)
    }

    // Writes the next data frame.
    pub fn write_data(&mut self, id: u16) -> Outgoing
        ensures frame { DataWritten self.old id result }
        ensures link { self.new ≡ after_data self.old id }
    {
        let octets = self.carried();
        self.write(Command::from(self.command), id, &octets)
    }

    // What the next data frame carries.
    fn carried(&self) -> [u8; 32]
        ensures { result ≡ carried self.now.command self.now.outputs }
    {
        match self.command {
            DataCommand::ProcessData => self.outputs,
            DataCommand::FailSafeData => [0; 32],
        }
    }

    // Takes a frame that is right.
    pub fn take(&mut self, octets: &[u8]) -> Result<(), Fault>
        ensures answer { result_err result ≡ crc_fault self.old.numbers self.old.size.octets octets.now }
        ensures link { self.new ≡ after_reading self.old octets.now }
    {
        let size = self.size;
        self.numbers
            .take(Received { octets, size })
            .map(|_number| ())
            .ok_or(Fault::InvalidCrc)
    }

    // Whether a frame has that connection ID.
    pub fn check_id(&self, octets: &[u8], id: u16) -> Result<(), Fault>
        ensures { result_err result ≡ id_fault self.now.size.octets octets.now id }
    {
        if self.id_in(octets) == id {
            Ok(())
        } else {
            Err(Fault::InvalidConnectionId)
        }
    }

    // Whether a reply buffer has room for a frame.
    pub fn check_room(&self, reply: &[u8]) -> Result<(), Refusal>
        ensures { result_err result ≡ short self.now.size.octets reply.now }
    {
        if reply.len() < self.size.frame_octets() {
            Err(Refusal::ShortReplyBuffer)
        } else {
            Ok(())
        }
    }

    // The connection ID that stands in a frame.
    pub fn id_in(&self, octets: &[u8]) -> u16
        ensures { result ≡ id-in-frame self.now.size.octets octets.now }
    {
        let size = self.size;
        Received { octets, size }.id()
    }

    // Sets the octets that data frames carry, and their kind, or refuses where there are not as many as the data length
    // says.
    pub fn set(&mut self, octets: &[u8], command: DataCommand) -> Result<(), Refusal>
        ensures { Setting self.old octets.now command self.new result }
    {
        if octets.len() != self.size.octets() {
            return Err(Refusal::WrongDataCount);
        }
        self.outputs = with_zeros(octets);
        self.command = command;
        Ok(())
    }
}

// A Reset frame with a code. It is written from fresh numbers, so every one with the same code is the same. The code is the octet
// itself, no `Option` of a fault: 0 is a code too, that of a reset call.
pub fn reset_frame(size: DataLength, code: u8) -> Outgoing
    ensures { Written fresh size 0 (octet Reset) (coded code) result }
{
    let mut numbers = Numbers::fresh();
    numbers.write(size, Command::Reset, 0, &with_zeros(&[code]))
}

// The octets of a Session frame.
pub fn numbered(session: u16) -> [u8; 32]
    ensures { result ≡ numbered session }
{
    with_zeros(&session.to_le_bytes())
}
