// A slave: what it shares with a master, the blocks that come in, and its profile.
use inlet::Inlet;
use shared_end::endpoint::Endpoint;

mod calls;
mod making;
mod questions;
pub mod running;
mod stepping;

// It is moved, never copied, and cannot be let go: it ends by being dismissed.
pub struct Slave<S, P> {
    endpoint: Endpoint<S>,
    inlet: Inlet,
    profile: P,
}

// What a slave leaves: its sink, cleared, and its profile. A struct for both ends is no plainer: its second field would have no
// name of its own.
#[derive(Drop)]
pub struct Dismissed<S, P> {
    pub sink: S,
    pub profile: P,
}
