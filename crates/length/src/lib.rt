// How many data octets the frames of a connection carry.
#![tactic(auto)]

ghost use Rattle.std.specs.Prelude.{◌≡◌, true};
ghost use Rattle.length.specs.Lawful.{lawful};

mod methods;
mod printing;
#[cfg(test)]
mod tests;

// The data length of a connection. Only a lawful one can be built: an even number from 2 to 32.
#[derive(Clone, Copy, Debug, PartialEq, Eq)]
pub struct DataLength {
    octets: usize,
    ghost lawful: { lawful octets ≡ true },
}
