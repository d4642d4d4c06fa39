// Which step a slave makes.
ghost use Rattle.std.specs.Prelude.{◌≡◌};
ghost use Rattle.shared_end.specs.Outcomes.{Reads};
ghost use Rattle.slave_end.specs.Matching.{Steps, with_inlet};

use super::Slave;
use faults::fault::Fault;
use faults::state::State;
use frame::received::{Frame, data_of};
use profile::Profile;
use shared_end::step::{Act, Step};

impl<S, P: Profile> Slave<S, P> {
    // The step by the slave's state and the kind of the frame.
    pub(super) fn step(
        &mut self,
        frame: Frame<'_>,
        octets: &[u8],
        session: u16,
    ) -> Result<Step, Fault>
        requires { Reads self.old.endpoint.link octets.now frame }
        ensures step { Steps P.Profile self.old octets.now session result self.new }
        ensures rest { self.new ≡ with_inlet self.old self.new.endpoint.link self.new.inlet }
    {
        let link = &mut self.endpoint.link;
        let inlet = &mut self.inlet;
        let profile = &self.profile;
        match (self.endpoint.state, frame) {
            (_, Frame::Reset(_)) => inlet.take_reset(link, octets),
            (_, Frame::Session(_)) => inlet.take_session(link, octets, session),
            (State::Session, Frame::Connection(body)) => inlet.first_connection(link, octets, body),
            (State::Connection, Frame::Connection(body)) => inlet.next_connection(
                link, octets, body,
            ),
            (State::Connection, Frame::Parameter(body)) => inlet.first_parameter(
                link, octets, body,
            ),
            (State::Parameter, Frame::Parameter(body)) => inlet.next_parameter::<P>(
                link, octets, body,
            ),
            (State::Parameter, Frame::ProcessData(body)) => {
                inlet.judged_data(link, octets, Act::Release(data_of(body)), profile)
            }
            (State::Parameter, Frame::FailSafeData(_)) => {
                inlet.judged_data(link, octets, Act::Clear, profile)
            }
            (State::Data, Frame::ProcessData(body)) => {
                inlet.next_data(link, octets, Act::Release(data_of(body)))
            }
            (State::Data, Frame::FailSafeData(_)) => inlet.next_data(link, octets, Act::Clear),
            (State::Reset | State::Parameter | State::Data, Frame::Connection(_)) => Err(
                Fault::InvalidCommand,
            ),
            (State::Reset | State::Session | State::Data, Frame::Parameter(_)) => Err(
                Fault::InvalidCommand,
            ),
            (State::Reset | State::Session | State::Connection, Frame::ProcessData(_)) => Err(
                Fault::InvalidCommand,
            ),
            (State::Reset | State::Session | State::Connection, Frame::FailSafeData(_)) => Err(
                Fault::InvalidCommand,
            ),
            (_, Frame::Unknown) => Err(Fault::UnknownCommand),
        }
    }
}
