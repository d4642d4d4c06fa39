ghost use Rattle.std.specs.Prelude.{◌≡◌, length};

// The user parameter octets, of which the first so many count as the plan says: an array, since firmware has no heap.
#[derive(Clone, Copy)]
pub struct UserOctets {
    pub octets: [u8; 16],
    ghost sixteen: { length octets ≡ 16 },
}
