ghost use Rattle.std.specs.Prelude.{◌≤◌};

use crate::draft::Draft;
use codes::refusal::Refusal;

mod methods;
pub mod printing;

// A plan that takes no further values. Whoever has one knows its ranges, and it is used once: it is moved and never
// copied.
#[derive(Drop)]
pub struct SealedPlan {
    draft: Draft,
    ghost id_range: { 1 ≤ draft.id },
    ghost watchdog_range: { 1 ≤ draft.watchdog },
    ghost user_octets_range: { draft.user_octets ≤ 16 },
}

// A draft that was not sealed, as it was handed in, and why.
#[derive(Debug, Drop)]
pub struct Unsealed {
    pub draft: Draft,
    pub refusal: Refusal,
}
