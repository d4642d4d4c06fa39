// A whole run, from the making on. One `run` for both ends is no plainer: they are made of different things.
ghost use Rattle.master_end.specs.Histories.{Runs};

use super::Master;
use faults::line::Line;
use history::call::Call;
use history::running::make_all;
use journal::Journal;
use plan::SealedPlan;
use sink::Sink;

impl<S: Sink> Master<S> {
    // Makes a master, and then the calls in order. Where the journal is new, a bit that the master shows then comes from a
    // live connection of these calls, and the journal tells every fault of them.
    pub fn run(
        plan: SealedPlan,
        sink: S,
        user: [u8; 16],
        calls: &[Call<'_>],
        journal: &mut Journal<'_, Line>,
        reply: &mut [u8],
    ) -> Master<S>
        ensures { Runs S.Sink plan sink user calls.now journal.old result journal.new }
    {
        let mut master = Master::new(plan, sink, user);
        make_all(&mut master, calls, journal, reply);
        master
    }
}
