// A received frame: its kind, and what is read from its octets.
ghost use Rattle.std.specs.Prelude.{◌≡◌, ◌+◌, ◌*◌, ◌<◌, true, Some, length, slice_index};
ghost use Rattle.frame.specs.Reading.{command_octet, first_octet, second_octet, body, id, whole, right, part_right, padded};
ghost use Rattle.frame.specs.Received.{Read, kind, held, kind_name};

use crate::command::{Command, UnknownCommand};
use codes::refusal::Refusal;
use crc::part::Shared;
use length::DataLength;
use std::fmt;

// A frame by its kind. Each known kind borrows the part between the command and the connection ID.
// A rule of the project: kinds are cases that borrow the body. So there is no `Option` of a command with a body beside it.
#[derive(Clone, Copy)]
pub enum Frame<'a> {
    Reset(&'a [u8]),
    Session(&'a [u8]),
    Connection(&'a [u8]),
    Parameter(&'a [u8]),
    ProcessData(&'a [u8]),
    FailSafeData(&'a [u8]),
    Unknown,
}

impl<'a> Frame<'a> {
    // The command, of a frame of a known kind.
    pub fn command(self) -> Option<Command>
        ensures { result ≡ kind self.entry }
    {
        match self {
            Frame::Reset(_) => Some(Command::Reset),
            Frame::Session(_) => Some(Command::Session),
            Frame::Connection(_) => Some(Command::Connection),
            Frame::Parameter(_) => Some(Command::Parameter),
            Frame::ProcessData(_) => Some(Command::ProcessData),
            Frame::FailSafeData(_) => Some(Command::FailSafeData),
            Frame::Unknown => None,
        }
    }

    // What stands between the command and the connection ID; nothing where the kind is unknown.
    pub fn body(self) -> &'a [u8]
        ensures { result.now ≡ held self.entry }
    {
        match self {
            Frame::Reset(body)
            | Frame::Session(body)
            | Frame::Connection(body)
            | Frame::Parameter(body)
            | Frame::ProcessData(body)
            | Frame::FailSafeData(body) => body,
            Frame::Unknown => &[],
        }
    }
}

impl fmt::Display for Frame<'_> {
    ghost output = { λ f. Some (kind_name f) };

    fn fmt<W: fmt::Write>(&self, f: &mut fmt::Formatter<W>) -> fmt::Result {
        match self.command() {
            Some(command) => command.fmt(f),
            None => f.write_str("unknown"),
        }
    }
}

// Octets that came in, and the data length of the connection that they came for.
#[derive(Clone, Copy)]
pub struct Received<'a> {
    pub octets: &'a [u8],
    pub size: DataLength,
}

impl<'a> Received<'a> {
    // The frame by its kind, or a refusal where it has another length than the connection's frames.
    pub fn frame(self) -> Result<Frame<'a>, Refusal>
        ensures { Read self.entry.size.octets self.entry.octets.now result }
    {
        if !self.whole() {
            return Err(Refusal::WrongFrameLength);
        }
        let body = self.body();
        Ok(match Command::try_from(self.command()) {
            Ok(Command::Reset) => Frame::Reset(body),
            Ok(Command::Session) => Frame::Session(body),
            Ok(Command::Connection) => Frame::Connection(body),
            Ok(Command::Parameter) => Frame::Parameter(body),
            Ok(Command::ProcessData) => Frame::ProcessData(body),
            Ok(Command::FailSafeData) => Frame::FailSafeData(body),
            Err(UnknownCommand(_)) => Frame::Unknown,
        })
    }

    // The command octet, of whatever kind the frame is; 0 where there is none.
    pub fn command(self) -> u8
        ensures { result ≡ command_octet self.entry.octets.now }
    {
        self.octet(0)
    }

    // The connection ID that stands in the frame.
    pub fn id(self) -> u16
        ensures { result ≡ id self.entry.size.octets self.entry.octets.now }
    {
        let at = 2 * self.size.octets() + 1;
        u16::from_le_bytes([self.octet(at), self.octet(at + 1)])
    }

    // Whether the frame is whole, and each of its CRCs is the one that follows from what its parts share.
    #[tactic(auto, unfolding(crate::specs::Reading::right))]
    pub fn is_right(self, shared: Shared) -> bool
        ensures { result ≡ right self.entry.size.octets self.entry.octets.now shared.register.bits }
    {
        if !self.whole() {
            return false;
        }
        let body = self.body();
        (0..self.size.parts()).all(|i| part_is_right(body, shared, i))
    }

    // The first data octet; 0 where there is none.
    pub fn first(self) -> u8
        ensures { result ≡ first_octet self.entry.octets.now }
    {
        self.octet(1)
    }

    // The second data octet; 0 where there is none.
    pub fn second(self) -> u8
        ensures { result ≡ second_octet self.entry.octets.now }
    {
        self.octet(2)
    }

    fn whole(self) -> bool
        ensures { result ≡ whole self.entry.size.octets self.entry.octets.now }
    {
        self.octets.len() == self.size.frame_octets()
    }

    fn body(self) -> &'a [u8]
        requires { whole self.size.octets self.octets.now ≡ true }
        ensures { result.now ≡ body self.entry.size.octets self.entry.octets.now }
    {
        &self.octets[1..2 * self.size.octets() + 1]
    }

    fn octet(self, i: usize) -> u8
        ensures { result ≡ slice_index self.entry.octets.now i }
    {
        self.octets.get(i).copied().unwrap_or(0)
    }
}

// Whether the CRC that stands in part i is the one that follows from its data octets.
fn part_is_right(body: &[u8], shared: Shared, i: u16) -> bool
    requires { 4 * i + 3 < length body.now }
    ensures { result ≡ part_right shared.register.bits body.now i }
{
    let at = 4 * i as usize;
    let part = &body[at..at + 4];
    // By index: a slice pattern would need an arm for lengths that never come.
    u16::from_le_bytes([part[2], part[3]]) == shared.part(i, part[0], part[1])
}

// The data octets that a frame's body carries, with zeros behind them.
pub fn data_of(body: &[u8]) -> [u8; 32]
    ensures { result ≡ padded body.now }
{
    let mut octets = [0; 32];
    // By place: once `chunks_exact_mut` has lent the array, a proof knows no element of it.
    for (i, part) in (0..16).zip(body.chunks_exact(4)) {
        octets[2 * i..2 * i + 2].copy_from_slice(&part[..2]);
    }
    octets
}
