// The CRC of the wire format.
#![tactic(auto)]

pub mod part;
pub mod register;
