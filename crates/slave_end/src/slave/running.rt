// A whole run, from the making on. One `run` for both ends is no plainer: they are made of different things.
ghost use Rattle.slave_end.specs.Histories.{Runs};

use super::Slave;
use faults::line::Line;
use history::call::Call;
use history::running::make_all;
use journal::Journal;
use length::DataLength;
use profile::Profile;
use sink::Sink;

impl<S: Sink, P: Profile> Slave<S, P> {
    // Makes a slave, and then the calls in order. Where the journal is new, a bit that the slave shows then comes from a
    // live connection of these calls, and the journal tells every fault of them.
    pub fn run(
        size: DataLength,
        address: u16,
        sink: S,
        profile: P,
        calls: &[Call<'_>],
        journal: &mut Journal<'_, Line>,
        reply: &mut [u8],
    ) -> Slave<S, P>
        ensures { Runs S.Sink P.Profile size address sink profile calls.now journal.old result journal.new }
    {
        let mut slave = Slave::new(size, address, sink, profile);
        make_all(&mut slave, calls, journal, reply);
        slave
    }
}
