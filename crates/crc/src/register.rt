// The 16-bit register that octets are fed to.
ghost use Rattle.std.specs.Prelude.{◌≡◌};
ghost use Rattle.crc.specs.Register.{shift, feed, fed, low_high};

const POLYNOMIAL: u16 = 0x39B7;

#[derive(Clone, Copy, Debug, PartialEq, Eq)]
pub struct Register {
    bits: u16,
}

impl Register {
    pub fn zero() -> Register
        ensures { result.bits ≡ 0 }
    {
        Register { bits: 0 }
    }

    pub fn bits(self) -> u16
        ensures { result ≡ self.bits }
    {
        self.bits
    }

    // The register after one octet more.
    #[tactic(auto, unfolding(crate::specs::Register::feed))]
    pub fn feed(self, octet: u8) -> Register
        ensures { result.bits ≡ feed self.bits octet }
    {
        let mut bits = self.bits ^ ((octet as u16) << 8);
        // A loop and no fold: the step takes no item, so a fold's closure would only let the turn's number go.
        for _i in 0..8u8 {
            bits = shift(bits);
        }
        Register { bits }
    }

    // The register after a number of two octets, the low one first.
    pub fn feed_number(self, number: u16) -> Register
        ensures { result.bits ≡ fed self.bits (low_high number) }
    {
        let [low, high] = number.to_le_bytes();
        self.feed(low).feed(high)
    }
}

// One place to the left, and the polynomial if a one fell out.
#[tactic(auto, unfolding(crate::specs::Register::shift))]
fn shift(bits: u16) -> u16
    ensures { result ≡ shift bits }
{
    if bits >= 0x8000 {
        (bits << 1) ^ POLYNOMIAL
    } else {
        bits << 1
    }
}
