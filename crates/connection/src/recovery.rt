// How a connection comes back after a reset of its master.
ghost use Rattle.std.specs.Prelude.{◌≡◌};
ghost use Rattle.connection.specs.Returning.{needed, ComesBack};
ghost use Rattle.connection.specs.Driving.{Bringing};

use crate::exchanging::{Sessions, exchange, repeat};
use codes::refusal::Refusal;
use faults::line::Line;
use history::running::End;
use journal::Journal;
use master_end::Master;
use profile::Profile;
use shared_end::data_command::DataCommand;
use sink::Sink;
use slave_end::Slave;

// How many exchanges after a reset of the master bring the connection back.
pub fn exchanges_needed<S: Sink, T: Sink, P: Profile>(
    master: &Master<S>,
    _slave: &Slave<T, P>,
) -> usize
    ensures count { result ≡ needed master.now }
    ensures law { ComesBack S.Sink T.Sink P.Profile master.now _slave.now }
{
    master.size().exchanges(master.plan().user_octets())
}

// Resets the master, sets the octets for process data behind the first exchange, and makes all the exchanges that bring the
// connection back. Answers what the slave's sink shows then.
pub fn bring_back<S: Sink, T: Sink, P: Profile>(
    master: &mut Master<S>,
    slave: &mut Slave<T, P>,
    octets: &[u8],
    sessions: Sessions,
    master_journal: &mut Journal<'_, Line>,
    slave_journal: &mut Journal<'_, Line>,
) -> Result<[u8; 32], Refusal>
    ensures { Bringing S.Sink T.Sink P.Profile master.old slave.old sessions octets.now result master.new slave.new master_journal.old master_journal.new slave_journal.old slave_journal.new }
{
    let d = master.size().octets();
    if octets.len() != d {
        return Err(Refusal::WrongDataCount);
    }
    if slave.size().octets() != d {
        return Err(Refusal::WrongFrameLength);
    }
    let count = exchanges_needed(master, slave);
    let mut first = [0; 67];
    master.reset(master_journal, &mut first)?;
    let second = exchange(
        master,
        slave,
        first,
        sessions,
        master_journal,
        slave_journal,
    )?;
    master.set(octets, DataCommand::ProcessData)?;
    repeat(
        master,
        slave,
        second,
        count - 1,
        sessions,
        master_journal,
        slave_journal,
    )?;
    Ok(slave.shows())
}
