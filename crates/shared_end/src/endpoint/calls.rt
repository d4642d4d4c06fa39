// The calls that are the same at both ends.
// Journal and reply buffer are lent apart: each has its owner, who reads it between the calls. In a struct of two loans, made
// anew for each call, they are no plainer.
ghost use Rattle.std.specs.Prelude.{◌≡◌};
ghost use Rattle.shared_end.specs.Link.{Setting};
ghost use Rattle.shared_end.specs.Endpoints.{with_link, with_sink};
ghost use Rattle.shared_end.specs.Calls.{Ticking, Resetting};

use super::Endpoint;
use crate::answer::Answer;
use crate::data_command::DataCommand;
use codes::refusal::Refusal;
use faults::fault::Fault;
use faults::line::Line;
use faults::state::State;
use journal::Journal;
use sink::Sink;

impl<S: Sink> Endpoint<S> {
    // A tick of the watchdog, which runs or not.
    pub fn tick(
        &mut self,
        runs: bool,
        journal: &mut Journal<'_, Line>,
        reply: &mut [u8],
    ) -> Result<Answer, Refusal>
        ensures { Ticking S.Sink runs self.old reply.old journal.old result self.new reply.new journal.new }
    {
        self.link.check_room(reply)?;
        if !self.link.tick(runs) {
            return Ok(Answer {
                state: self.state,
                line: None,
            });
        }
        let line = self.fail(Fault::WatchdogExpired, 0, journal, reply);
        Ok(Answer {
            state: self.state,
            line,
        })
    }

    // A reset.
    pub fn reset(
        &mut self,
        _journal: &mut Journal<'_, Line>,
        reply: &mut [u8],
    ) -> Result<Answer, Refusal>
        ensures { Resetting S.Sink self.old reply.old _journal.old result self.new reply.new _journal.new }
    {
        self.link.check_room(reply)?;
        self.restart(0).fill(reply);
        Ok(Answer {
            state: self.state,
            line: None,
        })
    }

    // What is left of an end that is dismissed: its sink, cleared.
    pub fn into_sink(self) -> S
        ensures { result ≡ S.Sink.cleared self.sink }
    {
        let Endpoint {
            state: _,
            link: _,
            mut sink,
        } = self;
        sink.clear();
        sink
    }
}
