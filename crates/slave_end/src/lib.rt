// The slave end of a connection.
#![tactic(auto)]

mod slave;

pub use slave::{Dismissed, Slave};
