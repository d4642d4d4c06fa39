// Which step a master makes.
ghost use Rattle.std.specs.Prelude.{◌≡◌};
ghost use Rattle.shared_end.specs.Outcomes.{Comes, Reads};
ghost use Rattle.master_end.specs.Matching.{asked, with_own};

use super::Master;
use faults::fault::Fault;
use faults::state::State;
use frame::received::{Frame, data_of};
use outlet::blocks::Block;
use shared_end::step::{Act, Step};

impl<S> Master<S> {
    // The step by the master's state and the kind of the frame.
    pub(super) fn step(
        &mut self,
        frame: Frame<'_>,
        octets: &[u8],
        session: u16,
    ) -> Result<Step, Fault>
        requires { Reads self.old.endpoint.link octets.now frame }
        ensures step { Comes (asked self.old octets.now session) self.old.endpoint.link self.old.outlet result self.new.endpoint.link self.new.outlet }
        ensures rest { self.new ≡ with_own self.old self.new.endpoint.link self.new.outlet }
    {
        let link = &mut self.endpoint.link;
        let plan = &self.plan;
        match (self.endpoint.state, frame) {
            (_, Frame::Reset(_)) => self.outlet.take_reset(link, session),
            (State::Session, Frame::Session(_)) => self.outlet.take_session(link, plan, octets),
            (State::Connection, Frame::Connection(body)) => self
                .outlet
                .take_piece(link, plan, Block::Connection, octets, body),
            (State::Parameter, Frame::Parameter(body)) => self
                .outlet
                .take_piece(link, plan, Block::Parameter, octets, body),
            (State::Data, Frame::ProcessData(body)) => self
                .outlet
                .take_data(link, plan, octets, Act::Release(data_of(body))),
            (State::Data, Frame::FailSafeData(_)) => self
                .outlet
                .take_data(link, plan, octets, Act::Clear),
            (
                State::Reset | State::Connection | State::Parameter | State::Data,
                Frame::Session(_),
            ) => Err(Fault::InvalidCommand),
            (
                State::Reset | State::Session | State::Parameter | State::Data,
                Frame::Connection(_),
            ) => Err(Fault::InvalidCommand),
            (
                State::Reset | State::Session | State::Connection | State::Data,
                Frame::Parameter(_),
            ) => Err(Fault::InvalidCommand),
            (
                State::Reset | State::Session | State::Connection | State::Parameter,
                Frame::ProcessData(_),
            ) => Err(Fault::InvalidCommand),
            (
                State::Reset | State::Session | State::Connection | State::Parameter,
                Frame::FailSafeData(_),
            ) => Err(Fault::InvalidCommand),
            (_, Frame::Unknown) => Err(Fault::UnknownCommand),
        }
    }
}
