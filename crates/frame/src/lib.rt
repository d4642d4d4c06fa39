// Frames: what stands in one, octet by octet, in writing and in reading.
#![tactic(auto)]

pub mod command;
pub mod outgoing;
pub mod received;
