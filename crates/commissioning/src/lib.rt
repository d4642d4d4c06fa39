// The commissioning engineer drafts the plan of one module, meets each refusal, corrects the draft and seals it.
// The plan then makes its master, and the dismissed master gives it back. Each action is printed.
#![tactic(auto)]

ghost use Rattle.std.specs.Prelude.{◌≡◌, IfOk};
ghost use Rattle.commissioning.specs.Planned.{Drafted, Planned};

use anyhow::anyhow;
use codes::refusal::Refusal;
use length::DataLength;
use master::Master;
use plan::{Draft, SealedPlan};

// Answers the draft that the dismissed master gave back.
pub fn commission(rt: &HostRuntime) -> anyhow::Result<Draft>
    ensures { IfOk result Drafted }
{
    let plan = draft_plan(rt)?;
    use_once(rt, plan)
}

// The plan of the module, drafted with mistakes, corrected and sealed.
pub fn draft_plan(rt: &HostRuntime) -> anyhow::Result<SealedPlan>
    ensures { IfOk result Planned }
{
    println!(rt; "module 'proofer fan', slave address 85")?;
    let length = choose_length(rt)?;
    let draft = Draft {
        id: 0,
        address: 85,
        watchdog: 0,
        length,
        user_octets: 20,
    };
    println!(rt; "draft: {draft}")?;

    let mut draft = seal_mistaken(rt, draft)?;
    println!(rt; "set the connection ID to 4660")?;
    draft.id = 4660;

    let mut draft = seal_mistaken(rt, draft)?;
    println!(rt; "set the watchdog time to 100 ms")?;
    draft.watchdog = 100;

    let mut draft = seal_mistaken(rt, draft)?;
    println!(rt; "set the count of user octets to 2")?;
    draft.user_octets = 2;

    seal_corrected(rt, draft)
}

// Asks for an unlawful length, then for a lawful one.
fn choose_length(rt: &HostRuntime) -> anyhow::Result<DataLength>
    ensures { IfOk result (λ l. l.octets ≡ 4) }
{
    match DataLength::new(5) {
        Ok(_) => return Err(anyhow!("5 data octets were not refused")),
        Err(refusal) => println!(rt; "ask for 5 data octets: refused with {refusal}")?,
    }
    let length = DataLength::new(4)?;
    println!(rt; "ask for 4 data octets: granted")?;
    Ok(length)
}

// Tries to seal a draft that has a mistake, and hands it back for correction.
fn seal_mistaken(rt: &HostRuntime, draft: Draft) -> anyhow::Result<Draft>
    ensures { IfOk result (λ d. d ≡ draft) }
{
    match draft.seal() {
        Ok(_) => Err(anyhow!("a mistaken draft was sealed")),
        Err(unsealed) => {
            let refusal = unsealed.refusal;
            println!(rt; "seal: refused with {refusal}")?;
            Ok(unsealed.draft)
        }
    }
}

fn seal_corrected(rt: &HostRuntime, draft: Draft) -> anyhow::Result<SealedPlan>
    ensures { IfOk result (λ p. p.draft ≡ draft) }
{
    let plan = draft.seal()?;
    println!(rt; "seal: sealed")?;
    println!(rt; "sealed plan: {plan}")?;
    Ok(plan)
}

// The plan makes its one master; dismissing that opens the plan again.
fn use_once(rt: &HostRuntime, plan: SealedPlan) -> anyhow::Result<Draft>
    ensures { IfOk result (λ d. d ≡ plan.draft) }
{
    let master = Master::new(plan);
    let id = master.plan().id();
    let draft = master.dismiss();
    println!(rt; "make the master of connection {id}: the sealed plan is used up")?;
    println!(rt; "dismiss the master: its plan is a draft again")?;
    println!(rt; "draft: {draft}")?;
    Ok(draft)
}
