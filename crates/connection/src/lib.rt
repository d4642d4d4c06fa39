// A master and a slave that exchange frames, and how they come back after a reset of the master.
#![tactic(auto)]

mod exchanging;
mod recovery;

pub use exchanging::{Sessions, exchange};
pub use recovery::{bring_back, exchanges_needed};
