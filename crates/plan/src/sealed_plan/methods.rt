// Sealing a draft, asking a sealed plan for its values, and reopening it.
ghost use Rattle.std.specs.Prelude.{◌≡◌, ◌≤◌};
ghost use Rattle.std.specs.Result.{result_err};
ghost use Rattle.plan.specs.Sealing.{Sealed, refused};

use super::{SealedPlan, Unsealed};
use crate::draft::Draft;
use codes::refusal::Refusal;
use length::DataLength;

impl Draft {
    // Seals the plan, or gives the draft back with the first refusal that it meets.
    pub fn seal(self) -> Result<SealedPlan, Unsealed>
        ensures { Sealed self result }
    {
        match self.check() {
            Ok(()) => Ok(SealedPlan { draft: self }),
            Err(refusal) => Err(Unsealed {
                draft: self,
                refusal,
            }),
        }
    }

    // The refusal that sealing would meet first, or nothing.
    fn check(&self) -> Result<(), Refusal>
        ensures { result_err result ≡ refused self.now }
    {
        if self.id == 0 {
            Err(Refusal::ZeroConnectionId)
        } else if self.watchdog == 0 {
            Err(Refusal::ZeroWatchdog)
        } else if self.user_octets > 16 {
            Err(Refusal::TooManyUserOctets)
        } else {
            Ok(())
        }
    }
}

impl SealedPlan {
    pub fn id(&self) -> u16
        ensures value { result ≡ self.now.draft.id }
        ensures low_bound { 1 ≤ result }
    {
        self.draft.id
    }

    pub fn address(&self) -> u16
        ensures { result ≡ self.now.draft.address }
    {
        self.draft.address
    }

    pub fn watchdog(&self) -> u16
        ensures value { result ≡ self.now.draft.watchdog }
        ensures low_bound { 1 ≤ result }
    {
        self.draft.watchdog
    }

    pub fn length(&self) -> DataLength
        ensures { result ≡ self.now.draft.length }
    {
        self.draft.length
    }

    pub fn user_octets(&self) -> u16
        ensures value { result ≡ self.now.draft.user_octets }
        ensures high_bound { result ≤ 16 }
    {
        self.draft.user_octets
    }

    // The draft with the same values. The sealed plan is used up.
    pub fn reopen(self) -> Draft
        ensures { result ≡ self.draft }
    {
        let SealedPlan { draft } = self;
        draft
    }
}
