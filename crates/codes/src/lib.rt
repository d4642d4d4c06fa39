// The numbers by which calls are refused.
#![tactic(auto)]

pub mod refusal;
