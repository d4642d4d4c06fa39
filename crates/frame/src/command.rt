// The kinds of frame, and the octet by which each is known.
ghost use Rattle.std.specs.Prelude.{◌≡◌, Some};
ghost use Rattle.frame.specs.Commands.{octet, name, Decodes};

use std::fmt;

#[derive(Clone, Copy, Debug, PartialEq, Eq)]
pub enum Command {
    Reset = 0x2A,
    Session = 0x4E,
    Connection = 0x64,
    Parameter = 0x52,
    ProcessData = 0x36,
    FailSafeData = 0x08,
}

// An octet that stands for no kind of frame.
#[derive(Clone, Copy, Debug, PartialEq, Eq)]
pub struct UnknownCommand(pub u8);

impl Command {
    const ALL: [Command; 6] = [
        Command::Reset,
        Command::Session,
        Command::Connection,
        Command::Parameter,
        Command::ProcessData,
        Command::FailSafeData,
    ];

    pub fn octet(self) -> u8
        ensures { result ≡ octet self }
    {
        self as u8
    }
}

impl TryFrom<u8> for Command {
    type Error = UnknownCommand;

    ghost try_from_gives = { Decodes };

    fn try_from(octet: u8) -> Result<Command, UnknownCommand> {
        Command::ALL
            .iter()
            .copied()
            .find(|command| octet == command.octet())
            .ok_or(UnknownCommand(octet))
    }
}

impl fmt::Display for Command {
    ghost output = { λ c. Some (name c) };

    fn fmt<W: fmt::Write>(&self, f: &mut fmt::Formatter<W>) -> fmt::Result {
        // written out: what `Debug` prints stands in no contract
        f.write_str(match self {
            Command::Reset => "Reset",
            Command::Session => "Session",
            Command::Connection => "Connection",
            Command::Parameter => "Parameter",
            Command::ProcessData => "ProcessData",
            Command::FailSafeData => "FailSafeData",
        })
    }
}
