// The calls of a slave.
ghost use Rattle.std.specs.Prelude.{◌≡◌, refl};
ghost use Rattle.slave_end.specs.Calls.{runs, Frames, Ticks, Resets, Sets, told};
ghost use Rattle.slave_end.specs.Histories.{Did};

use super::Slave;
use codes::refusal::Refusal;
use faults::line::Line;
use faults::state::State;
use frame::received::Received;
use history::running::End;
use journal::Journal;
use profile::Profile;
use shared_end::answer::{Answer, FrameAnswer};
use shared_end::data_command::DataCommand;
use sink::Sink;

impl<S: Sink, P: Profile> End for Slave<S, P> {
    ghost did = { Did S.Sink P.Profile };

    ghost reads_out = { λ e l j j' read. (refl, read) };

    // Hands a received frame in, with the session number to use. The reply is written to the front of the buffer.
    fn frame(
        &mut self,
        octets: &[u8],
        session: u16,
        journal: &mut Journal<'_, Line>,
        reply: &mut [u8],
    ) -> Result<FrameAnswer, Refusal>
        ensures { Frames S.Sink P.Profile self.old octets.now session reply.old journal.old result self.new reply.new journal.new }
    {
        let size = self.endpoint.link.size;
        let received = Received { octets, size };
        let frame = received.frame()?;
        self.endpoint.link.check_room(reply)?;
        let step = self.step(frame, octets, session);
        Ok(
            self.endpoint
                .answer(step, received.command(), journal, reply),
        )
    }

    // One millisecond passes. The watchdog runs in state Data.
    fn tick(&mut self, journal: &mut Journal<'_, Line>, reply: &mut [u8]) -> Result<Answer, Refusal>
        ensures { Ticks S.Sink self.old reply.old journal.old result self.new reply.new journal.new }
    {
        let runs = watches(self.endpoint.state);
        self.endpoint.tick(runs, journal, reply)
    }

    // Starts anew, with a Reset frame to the master.
    fn reset(
        &mut self,
        journal: &mut Journal<'_, Line>,
        reply: &mut [u8],
    ) -> Result<Answer, Refusal>
        ensures { Resets S.Sink self.old reply.old journal.old result self.new reply.new journal.new }
    {
        self.endpoint.reset(journal, reply)
    }

    // Sets the octets that data frames carry, and their kind.
    fn set(&mut self, octets: &[u8], command: DataCommand) -> Result<(), Refusal>
        ensures { Sets self.old octets.now command result self.new }
    {
        self.endpoint.link.set(octets, command)
    }

    // Hands a feedback of the output stage to the sink.
    fn feedback(&mut self, working: bool)
        ensures { self.new ≡ told S.Sink self.old working }
    {
        self.endpoint.sink.feedback(working);
    }
}

// Whether the watchdog of a slave runs.
fn watches(state: State) -> bool
    ensures { result ≡ runs state }
{
    matches!(state, State::Data)
}
