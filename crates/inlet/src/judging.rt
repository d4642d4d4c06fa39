// The steps of a slave that its profile judges.
ghost use Rattle.std.specs.Prelude.{◌≡◌};
ghost use Rattle.frame.specs.Reading.{padded};
ghost use Rattle.shared_end.specs.Outcomes.{Comes};
ghost use Rattle.inlet.specs.Steps.{first_data};
ghost use Rattle.inlet.specs.Outcomes.{limits, judgement, next_parameter};

use crate::{Inlet, Limits};
use faults::fault::Fault;
use faults::state::State;
use frame::command::Command;
use profile::Profile;
use shared_end::link::Link;
use shared_end::step::{Act, Step};

impl Inlet {
    // The next piece of the parameter block, which has 6 octets and the profile's user octets.
    pub fn next_parameter<P: Profile>(
        &mut self,
        link: &mut Link,
        octets: &[u8],
        body: &[u8],
    ) -> Result<Step, Fault>
        ensures { Comes (next_parameter P.Profile link.old self.old octets.now (padded body.now)) link.old self.old result link.new self.new }
    {
        let total = 6 + usize::from(P::USER_OCTETS);
        self.next_piece(
            link,
            State::Parameter,
            Command::Parameter,
            total,
            octets,
            body,
        )
    }

    // The first data frame: the profile judges the parameter block.
    pub fn judged_data<P: Profile>(
        &self,
        link: &mut Link,
        octets: &[u8],
        act: Act,
        profile: &P,
    ) -> Result<Step, Fault>
        ensures { Comes (first_data link.old self.now octets.now (limits P.Profile) (judgement P.Profile self.now) act) link.old self.now result link.new self.now }
    {
        let limits = Limits {
            user_octets: P::USER_OCTETS,
            lowest: P::LOWEST_WATCHDOG,
            highest: P::HIGHEST_WATCHDOG,
        };
        self.first_data(link, octets, act, limits, self.judgement(profile))
    }

    // The fault that the profile's verdict on the stored user octets is: an answer, which fails nothing yet.
    fn judgement<P: Profile>(&self, profile: &P) -> Option<Fault>
        ensures { result ≡ judgement P.Profile self.now }
    {
        let count = usize::from(P::USER_OCTETS);
        profile.verdict(&self.block[6..6 + count]).fault()
    }
}
