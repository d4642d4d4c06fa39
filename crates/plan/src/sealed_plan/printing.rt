// A sealed plan as the row of its values, and a draft that was not sealed as the refusal that it met.
ghost use Rattle.std.specs.Prelude.{Some};
ghost use Rattle.codes.specs.Refusals as refusals;
ghost use Rattle.plan.specs.Printed.{printed};

use crate::sealed_plan::{SealedPlan, Unsealed};
use std::error::Error;
use std::fmt;
use std::fmt::Display;

impl fmt::Display for SealedPlan {
    ghost output = { λ p. Some (printed p.draft) };

    fn fmt<W: fmt::Write>(&self, f: &mut fmt::Formatter<W>) -> fmt::Result {
        self.draft.fmt(f)
    }
}

impl fmt::Display for Unsealed {
    ghost output = { λ u. Some (refusals.printed u.refusal) };

    fn fmt<W: fmt::Write>(&self, f: &mut fmt::Formatter<W>) -> fmt::Result {
        self.refusal.fmt(f)
    }
}

impl Error for Unsealed {}
