// The named parameter rules: those of the bank and those of the drive.
#![tactic(auto)]

mod bank_profile;
mod drive_profile;

pub use bank_profile::BankProfile;
pub use drive_profile::DriveProfile;
