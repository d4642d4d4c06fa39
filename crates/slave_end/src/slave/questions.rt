// What a slave is asked. A question changes nothing. A trait with the questions of both ends is no plainer: the clauses `live`
// and `told` are each end's own, and the others read a field.
ghost use Rattle.std.specs.Prelude.{◌≡◌};
ghost use Rattle.slave_end.specs.Histories.{AlwaysLive, AlwaysTold};

use super::Slave;
use faults::line::Line;
use faults::state::State;
use journal::Journal;
use length::DataLength;
use profile::Profile;
use sink::Sink;

impl<S: Sink, P: Profile> Slave<S, P> {
    pub fn state(&self) -> State
        ensures { result ≡ self.now.endpoint.state }
    {
        self.endpoint.state
    }

    // The octets that the sink shows. Whatever calls led to this slave, a bit that is set in them comes from a live
    // connection: the clause `live`.
    pub fn shows(&self) -> [u8; 32]
        ensures value { result ≡ S.Sink.shown self.now.endpoint.sink }
        ensures live { AlwaysLive S.Sink P.Profile self.now }
    {
        self.endpoint.sink.shows()
    }

    pub fn is_up(&self) -> bool
        ensures { result ≡ S.Sink.up self.now.endpoint.sink }
    {
        self.endpoint.sink.is_up()
    }

    // How many lines met a full journal. Whatever calls led to this slave and its journal, the journal tells every fault:
    // the clause `told`.
    pub fn missed(&self, journal: &Journal<'_, Line>) -> u32
        ensures value { result ≡ journal.now.missed }
        ensures told { AlwaysTold S.Sink P.Profile self.now journal.now }
    {
        journal.missed()
    }

    pub fn size(&self) -> DataLength
        ensures { result ≡ self.now.endpoint.link.size }
    {
        self.endpoint.link.size
    }

    pub fn address(&self) -> u16
        ensures { result ≡ self.now.inlet.address }
    {
        self.inlet.address
    }
}
