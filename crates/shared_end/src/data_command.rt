// Which data frames an end sends.
ghost use Rattle.std.specs.Prelude.{◌≡◌};
ghost use Rattle.shared_end.specs.Data.{frame_command};

use frame::command::Command;

// An end sends its outputs, or zeros for the safe state.
#[derive(Clone, Copy, PartialEq, Eq)]
pub enum DataCommand {
    ProcessData,
    FailSafeData,
}

// The kind of frame that carries it.
impl From<DataCommand> for Command {
    ghost from_gives = { λ c k. k ≡ frame_command c };

    fn from(command: DataCommand) -> Command {
        match command {
            DataCommand::ProcessData => Command::ProcessData,
            DataCommand::FailSafeData => Command::FailSafeData,
        }
    }
}
