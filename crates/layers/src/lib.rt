// Layers: each holds any sink by value, and is a sink again.
// Each passes its calls down itself: three of five are one line in both, and a trait of layers with these as defaults would add its
// own member for the sink below. No plainer.
#![tactic(auto)]

mod hold_off;
mod mask;

pub use hold_off::HoldOff;
pub use mask::Mask;
