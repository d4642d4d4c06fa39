// The master end of a connection.
#![tactic(auto)]

mod master;

pub use master::{Dismissed, Master};
