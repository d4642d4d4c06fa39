// Why a call was refused. A refused call changes nothing, but for a refused release, after which zeros are shown.
ghost use Rattle.std.specs.Prelude.{◌≡◌, Some};
ghost use Rattle.codes.specs.Refusals.{number, meaning, printed};

use std::error::Error;
use std::fmt;

#[derive(Clone, Copy, Debug, PartialEq, Eq)]
pub enum Refusal {
    WrongFrameLength = 21,
    ShortReplyBuffer = 22,
    WrongDataCount = 23,
    ZeroConnectionId = 31,
    UnlawfulLength = 32,
    ZeroWatchdog = 33,
    TooManyUserOctets = 34,
    SinkDown = 41,
}

impl Refusal {
    // The number that docs/refusals.md lists.
    pub fn number(self) -> u16
        ensures { result ≡ number self }
    {
        self as u16
    }

    // What was wrong, in words.
    pub fn meaning(self) -> &'static str
        ensures { result.now ≡ meaning self }
    {
        match self {
            Refusal::WrongFrameLength =>
                "the frame has another length than the connection's frames",
            Refusal::ShortReplyBuffer => "the reply buffer is shorter than a frame",
            Refusal::WrongDataCount => "the data octets are not as many as the data length says",
            Refusal::ZeroConnectionId => "the connection ID is 0",
            Refusal::UnlawfulLength => "the data length is not an even number from 2 to 32",
            Refusal::ZeroWatchdog => "the watchdog time is 0",
            Refusal::TooManyUserOctets => "there are more than 16 user parameter octets",
            Refusal::SinkDown => "the sink is down",
        }
    }
}

impl fmt::Display for Refusal {
    ghost output = { λ r. Some (printed r) };

    fn fmt<W: fmt::Write>(&self, f: &mut fmt::Formatter<W>) -> fmt::Result {
        write!(f, "{}: {}", self.number(), self.meaning())
    }
}

impl Error for Refusal {}
