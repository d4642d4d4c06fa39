// The numbers that chain the frames of a connection, the same at both ends.
#![tactic(auto)]

pub mod choice;
pub mod numbers;
