// The steps of a slave, one function for each.
// `octets` is the whole frame and `body` what its kind borrows of it. `Received` is no plainer: it has a data length of its own, and
// each contract would have to ask that this is the link's.
ghost use Rattle.std.specs.Prelude.{◌≡◌, ◌≤◌};
ghost use Rattle.std.specs.Result.{result_err};
ghost use Rattle.faults.specs.declared.state.State.TheVariants as state;
ghost use Rattle.frame.specs.Reading.{padded};
ghost use Rattle.frame.specs.declared.command.Command.TheVariants as command;
ghost use Rattle.shared_end.specs.Outcomes.{Comes};
ghost use Rattle.inlet.specs.Pending.{StartsAnew, KeepsStored, PassesTicks};
ghost use Rattle.inlet.specs.Storing.{word};
ghost use Rattle.inlet.specs.Steps.{Answered, first_connection, next_piece, first_parameter, Opens, reset_taken, session_taken, data_taken, next_data, parameter_fault, first_data};

use crate::{Inlet, Limits};
use faults::fault::Fault;
use faults::state::State;
use frame::command::Command;
use frame::received::data_of;
use shared_end::link::{Link, numbered, reset_frame};
use shared_end::step::{Act, Step};

impl Inlet {
    // The first piece of the connection block. Its ID is kept.
    pub fn first_connection(
        &mut self,
        link: &mut Link,
        octets: &[u8],
        body: &[u8],
    ) -> Result<Step, Fault>
        ensures step { Comes (first_connection link.old self.old octets.now (padded body.now)) link.old self.old result link.new self.new }
        ensures anew { StartsAnew link.old self.old octets.now (padded body.now) }
        ensures ticks { PassesTicks (λ l. first_connection l self.old octets.now (padded body.now)) link.old }
    {
        let piece = data_of(body);
        let id = link.id_in(octets);
        if id == 0 || id != u16::from_le_bytes([piece[0], piece[1]]) {
            return Err(Fault::InvalidConnectionId);
        }
        link.take(octets)?;
        self.id = id;
        Ok(self.answer(link, State::Connection, Command::Connection, 0, &piece))
    }

    // The next piece of the connection block, which has 4 octets.
    pub fn next_connection(
        &mut self,
        link: &mut Link,
        octets: &[u8],
        body: &[u8],
    ) -> Result<Step, Fault>
        ensures { Comes (next_piece link.old self.old octets.now state.Connection command.Connection 4 (padded body.now)) link.old self.old result link.new self.new }
    {
        self.next_piece(
            link,
            State::Connection,
            Command::Connection,
            4,
            octets,
            body,
        )
    }

    // The next piece of a block of so many octets.
    pub fn next_piece(
        &mut self,
        link: &mut Link,
        state: State,
        command: Command,
        total: usize,
        octets: &[u8],
        body: &[u8],
    ) -> Result<Step, Fault>
        requires { total ≤ 32 }
        ensures step { Comes (next_piece link.old self.old octets.now state command total (padded body.now)) link.old self.old result link.new self.new }
        ensures ticks { PassesTicks (λ l. next_piece l self.old octets.now state command total (padded body.now)) link.old }
    {
        if self.stored >= total {
            return Err(Fault::InvalidCommand);
        }
        link.check_id(octets, self.id)?;
        link.take(octets)?;
        Ok(self.answer(link, state, command, self.stored, &data_of(body)))
    }

    // The first piece of the parameter block.
    pub fn first_parameter(
        &mut self,
        link: &mut Link,
        octets: &[u8],
        body: &[u8],
    ) -> Result<Step, Fault>
        ensures step { Comes (first_parameter link.old self.old octets.now (padded body.now)) link.old self.old result link.new self.new }
        ensures ticks { PassesTicks (λ l. first_parameter l self.old octets.now (padded body.now)) link.old }
    {
        if self.stored < 4 {
            return Err(Fault::InvalidCommand);
        }
        link.check_id(octets, self.id)?;
        if self.number_at(2) != self.address {
            return Err(Fault::InvalidAddress);
        }
        link.take(octets)?;
        Ok(self.answer(
            link,
            State::Parameter,
            Command::Parameter,
            0,
            &data_of(body),
        ))
    }

    // A Reset frame.
    pub fn take_reset(&self, link: &mut Link, octets: &[u8]) -> Result<Step, Fault>
        ensures step { Comes (reset_taken link.old self.now octets.now) link.old self.now result link.new self.now }
        ensures stored { KeepsStored (λ x. reset_taken link.old x octets.now) self.now }
        ensures ticks { PassesTicks (λ l. reset_taken l self.now octets.now) link.old }
    {
        let _opened = opened(link, octets)?;
        link.freshen();
        Ok(Step {
            state: State::Reset,
            act: Act::Clear,
            reply: reset_frame(link.size, 0),
        })
    }

    // A Session frame. It is answered by a Session frame with the slave's session number.
    pub fn take_session(&self, link: &mut Link, octets: &[u8], session: u16) -> Result<Step, Fault>
        ensures step { Comes (session_taken link.old self.now octets.now session) link.old self.now result link.new self.now }
        ensures stored { KeepsStored (λ x. session_taken link.old x octets.now session) self.now }
        ensures ticks { PassesTicks (λ l. session_taken l self.now octets.now session) link.old }
    {
        let mut opened = opened(link, octets)?;
        let reply = opened.write(Command::Session, 0, &numbered(session));
        *link = opened;
        Ok(Step {
            state: State::Session,
            act: Act::Clear,
            reply,
        })
    }

    // A data frame in state Data.
    pub fn next_data(&self, link: &mut Link, octets: &[u8], act: Act) -> Result<Step, Fault>
        ensures { Comes (next_data link.old self.now octets.now act) link.old self.now result link.new self.now }
    {
        link.check_id(octets, self.id)?;
        let watchdog = link.watchdog;
        self.take_data(link, octets, act, watchdog)
    }

    // The first data frame, for a profile with these numbers and this verdict on the user octets.
    pub fn first_data(
        &self,
        link: &mut Link,
        octets: &[u8],
        act: Act,
        limits: Limits,
        verdict: Option<Fault>,
    ) -> Result<Step, Fault>
        ensures step { Comes (first_data link.old self.now octets.now limits verdict act) link.old self.now result link.new self.now }
        ensures ticks { PassesTicks (λ l. first_data l self.now octets.now limits verdict act) link.old }
    {
        self.check_parameters(link, octets, limits, verdict)?;
        self.take_data(link, octets, act, self.number_at(2))
    }

    // Whether the parameter block is in order.
    fn check_parameters(
        &self,
        link: &Link,
        octets: &[u8],
        limits: Limits,
        verdict: Option<Fault>,
    ) -> Result<(), Fault>
        ensures { result_err result ≡ parameter_fault link.now self.now octets.now limits verdict }
    {
        if self.stored < 6 + usize::from(limits.user_octets) {
            return Err(Fault::InvalidCommand);
        }
        link.check_id(octets, self.id)?;
        if self.number_at(0) != 2 {
            return Err(Fault::InvalidParameterLength);
        }
        if !(limits.lowest..=limits.highest).contains(&self.number_at(2)) {
            return Err(Fault::InvalidWatchdog);
        }
        if self.number_at(4) != limits.user_octets {
            return Err(Fault::InvalidUserLength);
        }
        match verdict {
            Some(fault) => Err(fault),
            None => Ok(()),
        }
    }

    // A data frame that is right is answered by a data frame, which starts the watchdog time.
    fn take_data(
        &self,
        link: &mut Link,
        octets: &[u8],
        act: Act,
        watchdog: u16,
    ) -> Result<Step, Fault>
        ensures { Comes (data_taken link.old self.now octets.now act watchdog) link.old self.now result link.new self.now }
    {
        link.take(octets)?;
        link.watchdog = watchdog;
        let reply = link.write_data(self.id);
        Ok(Step {
            state: State::Data,
            act,
            reply,
        })
    }

    // The two-octet number that begins at a place of the block.
    fn number_at(&self, at: usize) -> u16
        requires { at ≤ 32 }
        ensures { result ≡ word self.now.block at }
    {
        u16::from_le_bytes([self.block[at], self.block[at + 1]])
    }

    // Stores a piece from there on, and answers it by its own octets.
    fn answer(
        &mut self,
        link: &mut Link,
        state: State,
        command: Command,
        at: usize,
        piece: &[u8; 32],
    ) -> Step
        requires { at ≤ 32 }
        ensures { Answered link.old self.old state command at piece.now result link.new self.new }
    {
        let d = link.size.octets();
        self.block[at..at + d].copy_from_slice(&piece[0..d]);
        self.stored = at + d;
        let reply = link.write(command, self.id, piece);
        Step {
            state,
            act: Act::Keep,
            reply,
        }
    }
}

// The link after a frame that is right by fresh numbers.
fn opened(link: &Link, octets: &[u8]) -> Result<Link, Fault>
    ensures { Opens link.now octets.now result }
{
    let mut link = *link;
    link.freshen();
    link.take(octets)?;
    Ok(link)
}
