// A module that the library does not know: the heaters of a deck oven. It stands on the interfaces alone.
#![tactic(auto)]

mod heater_profile;
mod heater_stage;

pub use heater_profile::HeaterProfile;
pub use heater_stage::HeaterStage;
