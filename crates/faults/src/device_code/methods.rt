// Building a device code, and asking for it.
ghost use Rattle.std.specs.Prelude.{◌≡◌, ◌≤◌};
ghost use Rattle.faults.specs.DeviceCodes.{code};

use super::DeviceCode;

const FIRST: u8 = 128;

impl DeviceCode {
    // The code of that number, or none where it is below 128.
    pub fn new(number: u8) -> Option<DeviceCode>
        ensures { result ≡ code number }
    {
        if number >= FIRST {
            Some(DeviceCode { number })
        } else {
            None
        }
    }

    pub fn number(self) -> u8
        ensures value { result ≡ self.number }
        ensures low_bound { 128 ≤ result }
    {
        self.number
    }
}
