// Making a master, and dismissing it.
ghost use Rattle.std.specs.Prelude.{◌≡◌};
ghost use Rattle.master_end.specs.Calls.{Made};

use super::{Dismissed, Master};
use outlet::Outlet;
use outlet::user::UserOctets;
use plan::SealedPlan;
use shared_end::endpoint::Endpoint;
use sink::Sink;

impl<S: Sink> Master<S> {
    // A master for the connection that the plan describes, which is used up, with its user parameter octets.
    pub fn new(plan: SealedPlan, sink: S, user: [u8; 16]) -> Master<S>
        ensures { Made S.Sink plan sink user result }
    {
        let user = UserOctets { octets: user };
        let endpoint = Endpoint::new(plan.length(), plan.watchdog(), sink);
        Master {
            endpoint,
            outlet: Outlet { user, at: 0 },
            plan,
        }
    }

    // Ends the master, and gives its sink back, cleared, and its plan as a draft with the same values.
    pub fn dismiss(self) -> Dismissed<S>
        ensures sink { result.sink ≡ S.Sink.cleared self.endpoint.sink }
        ensures draft { result.draft ≡ self.plan.draft }
    {
        let Master {
            endpoint,
            outlet: _,
            plan,
        } = self;
        Dismissed {
            sink: endpoint.into_sink(),
            draft: plan.reopen(),
        }
    }
}
