ghost use Rattle.std.specs.Prelude.{◌≡◌, true, nat_le};

mod methods;

// A fault code that a device gives a meaning of its own: 128 to 255.
#[derive(Clone, Copy, Debug, PartialEq, Eq)]
pub struct DeviceCode {
    number: u8,
    ghost own: { nat_le 128 number ≡ true },
}
