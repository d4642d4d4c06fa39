// Making any list of calls at an end.
ghost use Rattle.std.specs.Prelude.{List, Option};
ghost use Rattle.faults.specs.declared.line.Line.{Line};
ghost use Rattle.journal.specs.declared.queue.Journal.{Journal as Kept};
ghost use Rattle.journal.specs.Steps.{Reading};
ghost use Rattle.history.specs.Events as event;
ghost use Rattle.history.specs.Requests.{Makes, Ran};

use crate::call::Call;
use codes::refusal::Refusal;
use faults::line::Line;
use journal::Journal;
use shared_end::answer::{Answer, FrameAnswer};
use shared_end::data_command::DataCommand;

// What takes calls: a master or a slave.
pub trait End {
    // What a call, with its answer, makes of the end and its journal.
    ghost did: { event.Event → Self → Kept Line → Self → Kept Line → Type 0 };

    fn frame(
        &mut self,
        octets: &[u8],
        session: u16,
        journal: &mut Journal<'_, Line>,
        reply: &mut [u8],
    ) -> Result<FrameAnswer, Refusal>
        ensures { did (event.frame octets.now session result) self.old journal.old self.new journal.new };

    fn tick(&mut self, journal: &mut Journal<'_, Line>, reply: &mut [u8]) -> Result<Answer, Refusal>
        ensures { did (event.tick result) self.old journal.old self.new journal.new };

    fn reset(
        &mut self,
        journal: &mut Journal<'_, Line>,
        reply: &mut [u8],
    ) -> Result<Answer, Refusal>
        ensures { did (event.reset result) self.old journal.old self.new journal.new };

    fn set(&mut self, octets: &[u8], command: DataCommand) -> Result<(), Refusal>
        ensures { (j : Kept Line) → did (event.set octets.now command result) self.old j self.new j };

    fn feedback(&mut self, working: bool)
        ensures { (j : Kept Line) → did (event.feedback working) self.old j self.new j };

    // A read-out of the journal leaves the end.
    ghost reads_out: { (e : Self) → (l : Option Line) → (j j' : Kept Line) → Reading l j j' → did (event.read_out l) e j e j' };

    // Makes one call. Its answer is let go.
    final fn make(&mut self, call: Call<'_>, journal: &mut Journal<'_, Line>, reply: &mut [u8])
        ensures { Makes did call.entry self.old journal.old self.new journal.new }
    {
        match call {
            Call::Tick => {
                let _ = self.tick(journal, reply);
            }
            Call::Reset => {
                let _ = self.reset(journal, reply);
            }
            Call::ReadOut => {
                let _ = journal.read_out();
            }
            Call::Feedback(working) => self.feedback(working),
            Call::Set(octets, command) => {
                let _ = self.set(octets, command);
            }
            Call::Frame(octets, session) => {
                let _ = self.frame(octets, session, journal, reply);
            }
        }
    }
}

// What calls can be made at: each end, and a type of a user's own, such as one that counts the calls and passes them on.
pub trait TakeCall {
    // What a call, with its answer, makes of it and the journal.
    ghost did: { event.Event → Self → Kept Line → Self → Kept Line → Type 0 };

    // Takes one call. Its answer is let go.
    fn take_call(&mut self, call: Call<'_>, journal: &mut Journal<'_, Line>, reply: &mut [u8])
        ensures { Makes did call.entry self.old journal.old self.new journal.new };
}

impl<E: End> TakeCall for E {
    ghost did = { E.did };

    fn take_call(&mut self, call: Call<'_>, journal: &mut Journal<'_, Line>, reply: &mut [u8]) {
        self.make(call, journal, reply);
    }
}

// Makes the calls in order.
pub fn make_all<E: TakeCall>(
    end: &mut E,
    calls: &[Call<'_>],
    journal: &mut Journal<'_, Line>,
    reply: &mut [u8],
)
    ensures { Ran E.did calls.now end.old journal.old end.new journal.new }
{
    for call in calls {
        end.take_call(*call, journal, reply);
    }
}
