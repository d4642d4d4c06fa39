// A data length as its number of octets.
ghost use Rattle.std.specs.Prelude.{Some, decimal};

use crate::DataLength;
use std::fmt;

impl fmt::Display for DataLength {
    ghost output = { λ d. Some (decimal d.octets) };

    fn fmt<W: fmt::Write>(&self, f: &mut fmt::Formatter<W>) -> fmt::Result {
        self.octets.fmt(f)
    }
}
