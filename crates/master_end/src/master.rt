// A master: its endpoint, what it keeps of its blocks, and its plan.
use outlet::Outlet;
use plan::{Draft, SealedPlan};
use shared_end::endpoint::Endpoint;

mod calls;
mod making;
mod questions;
pub mod running;
mod stepping;

// It is moved, never copied, and cannot be let go: it ends by being dismissed.
pub struct Master<S> {
    endpoint: Endpoint<S>,
    outlet: Outlet,
    plan: SealedPlan,
}

// What a master leaves: its sink, cleared, and its plan, reopened. A struct for both ends is no plainer: its second field would
// have no name of its own.
#[derive(Drop)]
pub struct Dismissed<S> {
    pub sink: S,
    pub draft: Draft,
}
