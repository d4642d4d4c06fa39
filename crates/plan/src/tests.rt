use crate::Draft;
use codes::refusal::Refusal;
use length::DataLength;
use std::process::Abort;
use std::test::Fail;

// A draft with three mistakes meets the refusals in their order, and comes back as it was.
#[test]
fn refusals_in_order(rt: HostRuntime) -> Result<(), Fail> {
    let length = DataLength::new(4)?;
    let draft = Draft {
        id: 0,
        address: 85,
        watchdog: 0,
        length,
        user_octets: 17,
    };
    let mut draft = refused(&rt, draft, Refusal::ZeroConnectionId)?;
    assert_eq!(rt; draft.user_octets, 17);
    draft.id = 1;
    let mut draft = refused(&rt, draft, Refusal::ZeroWatchdog)?;
    draft.watchdog = 1;
    let mut draft = refused(&rt, draft, Refusal::TooManyUserOctets)?;
    draft.user_octets = 16;
    let plan = draft.seal()?;
    assert_eq!(rt; plan.address(), 85);
    assert_eq!(rt; plan.reopen().user_octets, 16);
    Ok(())
}

fn refused(rt: &impl Abort, draft: Draft, expected: Refusal) -> Result<Draft, Fail> {
    match draft.seal() {
        Ok(_) => Err(Fail::new("sealed")),
        Err(unsealed) => {
            assert_eq!(rt; unsealed.refusal, expected);
            Ok(unsealed.draft)
        }
    }
}
