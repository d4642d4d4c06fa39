// The calls of a master.
ghost use Rattle.std.specs.Prelude.{◌≡◌, refl};
ghost use Rattle.master_end.specs.Calls.{Frames, Ticks, Resets, Sets, told};
ghost use Rattle.master_end.specs.Histories.{Did};

use super::Master;
use codes::refusal::Refusal;
use faults::line::Line;
use frame::received::Received;
use history::running::End;
use journal::Journal;
use shared_end::answer::{Answer, FrameAnswer};
use shared_end::data_command::DataCommand;
use sink::Sink;

impl<S: Sink> End for Master<S> {
    ghost did = { Did S.Sink };

    ghost reads_out = { λ e l j j' read. (refl, read) };

    // Hands a received frame in, with the session number to use. The next frame to the slave is written to the front of
    // the reply buffer.
    fn frame(
        &mut self,
        octets: &[u8],
        session: u16,
        journal: &mut Journal<'_, Line>,
        reply: &mut [u8],
    ) -> Result<FrameAnswer, Refusal>
        ensures { Frames S.Sink self.old octets.now session reply.old journal.old result self.new reply.new journal.new }
    {
        let size = self.endpoint.link.size;
        let received = Received { octets, size };
        let frame = received.frame()?;
        self.endpoint.link.check_room(reply)?;
        let step = self.step(frame, octets, session);
        Ok(
            self.endpoint
                .answer(step, received.command(), journal, reply),
        )
    }

    // One millisecond passes. The watchdog of a master runs in every state.
    fn tick(&mut self, journal: &mut Journal<'_, Line>, reply: &mut [u8]) -> Result<Answer, Refusal>
        ensures { Ticks S.Sink self.old reply.old journal.old result self.new reply.new journal.new }
    {
        self.endpoint.tick(true, journal, reply)
    }

    // Starts anew, with a Reset frame to the slave.
    fn reset(
        &mut self,
        journal: &mut Journal<'_, Line>,
        reply: &mut [u8],
    ) -> Result<Answer, Refusal>
        ensures { Resets S.Sink self.old reply.old journal.old result self.new reply.new journal.new }
    {
        self.endpoint.reset(journal, reply)
    }

    // Sets the octets that data frames carry, and their kind.
    fn set(&mut self, octets: &[u8], command: DataCommand) -> Result<(), Refusal>
        ensures { Sets self.old octets.now command result self.new }
    {
        self.endpoint.link.set(octets, command)
    }

    // Hands a feedback of the input stage to the sink.
    fn feedback(&mut self, working: bool)
        ensures { self.new ≡ told S.Sink self.old working }
    {
        self.endpoint.sink.feedback(working);
    }
}
