// The CRC of each part of a frame.
ghost use Rattle.std.specs.Prelude.{◌≡◌};
ghost use Rattle.crc.specs.Crc.{shared, part_crc, crc, OnlyNumber};

use crate::register::Register;

// What all parts of a frame share, and the register that was fed with it: once for a frame. The command is an octet, since
// one that came in may stand for no kind.
#[derive(Clone, Copy)]
pub struct Shared {
    command: u8,
    id: u16,
    register: Register,
}

impl Shared {
    #[tactic(auto, unfolding(crate::specs::Crc::shared))]
    pub fn new(last: u16, id: u16, number: u16, command: u8) -> Shared
        ensures command { result.command ≡ command }
        ensures id { result.id ≡ id }
        ensures register { result.register.bits ≡ shared last id number command }
    {
        let register = Register::zero()
            .feed_number(last)
            .feed_number(id)
            .feed_number(number);
        Shared {
            command,
            id,
            register: register.feed(command),
        }
    }

    pub fn command(self) -> u8
        ensures { result ≡ self.command }
    {
        self.command
    }

    pub fn id(self) -> u16
        ensures { result ≡ self.id }
    {
        self.id
    }

    // The CRC of part i over its two data octets.
    #[tactic(auto, unfolding(crate::specs::Crc::part_crc))]
    pub fn part(self, i: u16, first: u8, second: u8) -> u16
        ensures { result ≡ part_crc self.register.bits i first second }
    {
        let register = if i > 0 {
            self.register.feed_number(i)
        } else {
            self.register
        };
        let register = register.feed(first).feed(second);
        register.feed(0).feed(0).feed(0).bits()
    }
}

// The CRC of part i of a frame, from all that it is fed with.
#[tactic(auto, using(crate::proofs::OneToOne::only_number))]
pub fn crc(i: u16, last: u16, id: u16, number: u16, command: u8, first: u8, second: u8) -> u16
    ensures value { result ≡ crc i last id number command first second }
    ensures one_to_one { OnlyNumber i last id number command first second }
{
    Shared::new(last, id, number, command).part(i, first, second)
}
