// Histories of an end: its making, and then its calls with what they answered.
#![tactic(auto)]

pub mod call;
pub mod running;
