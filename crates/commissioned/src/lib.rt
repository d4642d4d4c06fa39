// The plan that the commissioning engineer drafts makes its one master, and the dismissed master gives it back. Each action
// is printed.
#![tactic(auto)]

ghost use Rattle.std.specs.Prelude.{◌≡◌, IfOk};
ghost use Rattle.commissioned.specs.Commissioned.{Unused, Commissioned};

use commissioning::draft_plan;
use master_end::Master;
use plan::{Draft, SealedPlan};
use sinks::Bank;

// The user parameter octets of the module: one number, 500.
const USER: [u8; 16] = [0xF4, 0x01, 0, 0, 0, 0, 0, 0, 0, 0, 0, 0, 0, 0, 0, 0];

pub fn commission(rt: &HostRuntime) -> anyhow::Result<Master<Bank>>
    ensures { IfOk result Commissioned }
{
    let plan = draft_plan(rt)?;
    make_master(rt, plan)
}

// The plan makes its one master, with a bank for the inputs.
fn make_master(rt: &HostRuntime, plan: SealedPlan) -> anyhow::Result<Master<Bank>>
    ensures { IfOk result (λ m. (m.plan ≡ plan) × Unused m) }
{
    let id = plan.id();
    println!(rt; "make the master of connection {id}: the sealed plan is used up")?;
    let inputs = Bank::new();
    Ok(Master::new(plan, inputs, USER))
}

// Dismissing the master opens its plan again.
pub fn dismiss(rt: &HostRuntime, master: Master<Bank>) -> anyhow::Result<Draft>
    ensures { IfOk result (λ d. d ≡ master.plan.draft) }
{
    let dismissed = master.dismiss();
    let draft = dismissed.draft;
    println!(rt; "dismiss the master: its inputs are cleared, and its plan is a draft again")?;
    println!(rt; "draft: {draft}")?;
    Ok(draft)
}
