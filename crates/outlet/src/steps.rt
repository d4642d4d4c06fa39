// The steps of a master, one function for each.
ghost use Rattle.std.specs.Prelude.{◌≡◌};
ghost use Rattle.frame.specs.Reading.{padded};
ghost use Rattle.shared_end.specs.Outcomes.{Comes};
ghost use Rattle.outlet.specs.Steps.{reset_taken, session_taken, piece_taken, data_taken, answer_fault, Checked};

use crate::Outlet;
use crate::blocks::Block;
use faults::fault::Fault;
use faults::state::State;
use frame::command::Command;
use frame::received::data_of;
use plan::SealedPlan;
use shared_end::link::{Link, numbered};
use shared_end::step::{Act, Step};

impl Outlet {
    // A Reset frame. It is answered by a Session frame with the caller's session number.
    pub fn take_reset(&self, link: &mut Link, session: u16) -> Result<Step, Fault>
        ensures { Comes (reset_taken link.old self.now session) link.old self.now result link.new self.now }
    {
        link.freshen();
        let reply = link.write(Command::Session, 0, &numbered(session));
        Ok(Step {
            state: State::Session,
            act: Act::Clear,
            reply,
        })
    }

    // A Session frame. The first piece of the connection block goes out.
    pub fn take_session(
        &mut self,
        link: &mut Link,
        plan: &SealedPlan,
        octets: &[u8],
    ) -> Result<Step, Fault>
        ensures { Comes (session_taken link.old self.old plan.now octets.now) link.old self.old result link.new self.new }
    {
        link.take(octets)?;
        Ok(self.send(link, plan, Block::Connection, 0))
    }

    // A frame that answers the piece that is out. What comes behind that goes out.
    pub fn take_piece(
        &mut self,
        link: &mut Link,
        plan: &SealedPlan,
        block: Block,
        octets: &[u8],
        body: &[u8],
    ) -> Result<Step, Fault>
        ensures { Comes (piece_taken link.old self.old plan.now octets.now block (padded body.now)) link.old self.old result link.new self.new }
    {
        self.acknowledge(link, plan, block, octets, &data_of(body))?;
        Ok(self.send_next(link, plan, block))
    }

    // A data frame.
    pub fn take_data(
        &self,
        link: &mut Link,
        plan: &SealedPlan,
        octets: &[u8],
        act: Act,
    ) -> Result<Step, Fault>
        ensures { Comes (data_taken link.old self.now plan.now octets.now act) link.old self.now result link.new self.now }
    {
        link.check_id(octets, plan.id())?;
        link.take(octets)?;
        Ok(self.send_data(link, plan, act))
    }

    // Takes a frame that answers the piece that is out.
    fn acknowledge(
        &self,
        link: &mut Link,
        plan: &SealedPlan,
        block: Block,
        octets: &[u8],
        answer: &[u8; 32],
    ) -> Result<(), Fault>
        ensures { Checked link.old self.now plan.now octets.now (answer_fault link.old self.now plan.now octets.now block answer.now) result link.new }
    {
        link.check_id(octets, plan.id())?;
        if *answer != self.piece_out(link, plan, block) {
            return Err(Fault::InvalidData);
        }
        link.take(octets)
    }
}
