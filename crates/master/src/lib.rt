// The master end of a connection, as far as its plan goes: it only holds the plan that it was made from. The whole master, which
// is made of a sink and user octets too, is no plainer for a program that shows what becomes of a plan.
#![tactic(auto)]

ghost use Rattle.std.specs.Prelude.{◌≡◌};

use plan::{Draft, SealedPlan};

// It is moved, never copied, and cannot be let go: it ends by being dismissed.
pub struct Master {
    plan: SealedPlan,
}

impl Master {
    // A master for the connection that the plan describes. The plan is used up.
    pub fn new(plan: SealedPlan) -> Master
        ensures { result.plan ≡ plan }
    {
        Master { plan }
    }

    pub fn plan(&self) -> &SealedPlan
        ensures { result.now ≡ self.now.plan }
    {
        &self.plan
    }

    // Ends the master, and gives its plan back as a draft with the same values.
    pub fn dismiss(self) -> Draft
        ensures { result ≡ self.plan.draft }
    {
        let Master { plan } = self;
        plan.reopen()
    }
}
