// The output stage, generic over what stands at its outputs, and the two named ones: the bank and the drive.
#![tactic(auto)]

mod bank;
mod drive;
mod outputs;
mod stage;

pub use bank::{Bank, Whole};
pub use drive::{Drive, Switches};
pub use outputs::Outputs;
pub use stage::Stage;
