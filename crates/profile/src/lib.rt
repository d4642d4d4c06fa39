// The interface of a module's parameter rules: its three numbers, and its verdict on the user octets.
#![tactic(auto)]

mod profile;
mod verdict;

pub use profile::Profile;
pub use verdict::Verdict;
