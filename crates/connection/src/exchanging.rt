// Exchanges of frames between a master and a slave.
// Ends and journals are lent one by one: each has its owner. A struct of four loans proves and is no plainer: it takes six
// lifetimes and a definition that the loans stay the same, and each call stands twice, so that callers who own them apart keep it.
// The buffers have room for the longest frame, since firmware has no heap.
ghost use Rattle.connection.specs.Driving.{Exchanging, Repeating};

use codes::refusal::Refusal;
use faults::line::Line;
use history::running::End;
use journal::Journal;
use master_end::Master;
use profile::Profile;
use sink::Sink;
use slave_end::Slave;

// The session numbers that the two ends use.
#[derive(Clone, Copy)]
pub struct Sessions {
    pub master: u16,
    pub slave: u16,
}

// One exchange: the master's latest frame, at the front of the buffer, goes to the slave, and the slave's reply back to the
// master, whose next frame is at the front of the answer.
pub fn exchange<S: Sink, T: Sink, P: Profile>(
    master: &mut Master<S>,
    slave: &mut Slave<T, P>,
    latest: [u8; 67],
    sessions: Sessions,
    master_journal: &mut Journal<'_, Line>,
    slave_journal: &mut Journal<'_, Line>,
) -> Result<[u8; 67], Refusal>
    ensures { Exchanging S.Sink T.Sink P.Profile master.old slave.old sessions latest result master.new slave.new master_journal.old master_journal.new slave_journal.old slave_journal.new }
{
    let count = master.size().frame_octets();
    let mut reply = [0; 67];
    slave.frame(&latest[0..count], sessions.slave, slave_journal, &mut reply)?;
    let mut next = [0; 67];
    master.frame(&reply[0..count], sessions.master, master_journal, &mut next)?;
    Ok(next)
}

// So many exchanges, one after another.
pub fn repeat<S: Sink, T: Sink, P: Profile>(
    master: &mut Master<S>,
    slave: &mut Slave<T, P>,
    first: [u8; 67],
    count: usize,
    sessions: Sessions,
    master_journal: &mut Journal<'_, Line>,
    slave_journal: &mut Journal<'_, Line>,
) -> Result<[u8; 67], Refusal>
    ensures { Repeating S.Sink T.Sink P.Profile master.old slave.old sessions count first result master.new slave.new master_journal.old master_journal.new slave_journal.old slave_journal.new }
{
    let mut latest = first;
    // counts exchanges, and goes over nothing
    for _made in 0..count {
        latest = exchange(
            master,
            slave,
            latest,
            sessions,
            master_journal,
            slave_journal,
        )?;
    }
    Ok(latest)
}
