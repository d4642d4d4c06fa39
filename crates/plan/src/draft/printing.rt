// A draft as one readable row.
ghost use Rattle.std.specs.Prelude.{Some};
ghost use Rattle.plan.specs.Printed.{printed};

use super::Draft;
use std::fmt;

impl fmt::Display for Draft {
    ghost output = { λ d. Some (printed d) };

    fn fmt<W: fmt::Write>(&self, f: &mut fmt::Formatter<W>) -> fmt::Result {
        let Draft {
            id,
            address,
            watchdog,
            length,
            user_octets,
        } = self;
        write!(
            f,
            "connection ID {id}, slave address {address}, watchdog {watchdog} ms, {length} data octets, {user_octets} user octets"
        )
    }
}
