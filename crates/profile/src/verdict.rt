// What a profile says of the user octets.
ghost use Rattle.std.specs.Prelude.{◌≡◌};
ghost use Rattle.profile.specs.Verdicts.{number, fault, device, Listed};

use faults::device_code::DeviceCode;
use faults::fault::Fault;

#[derive(Clone, Copy, Debug, PartialEq, Eq)]
pub enum Verdict {
    Accepted,
    Invalid,
    Device(DeviceCode),
}

impl Verdict {
    // A refusal by a code of the device's own. Where the number is below 128 it is none, and the octets are invalid.
    pub fn device(number: u8) -> Verdict
        ensures { result ≡ device number }
    {
        DeviceCode::new(number).map_or(Verdict::Invalid, Verdict::Device)
    }

    // The fault that the verdict is, or none where the octets are accepted: an answer to a question, which fails nothing.
    pub fn fault(self) -> Option<Fault>
        ensures { result ≡ fault self }
    {
        match self {
            Verdict::Accepted => None,
            Verdict::Invalid => Some(Fault::InvalidUserParameters),
            Verdict::Device(code) => Some(Fault::Device(code)),
        }
    }

    // The number of that fault, or 0: it is 0, 11, or 128 to 255.
    pub fn number(self) -> u8
        ensures value { result ≡ number self }
        ensures listed { Listed result }
    {
        self.fault().map_or(0, Fault::number)
    }
}
