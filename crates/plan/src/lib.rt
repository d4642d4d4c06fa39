// The plan of a connection: drafted freely, sealed within its ranges, used once.
#![tactic(auto)]

mod draft;
mod sealed_plan;
#[cfg(test)]
mod tests;

pub use draft::Draft;
pub use sealed_plan::{SealedPlan, Unsealed};
