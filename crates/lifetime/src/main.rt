// Takes the connection of one module through its life: its output stage is tried out, its plan is drafted and sealed, the two
// ends are made and brought up exchange by exchange, the cable is pulled, the connection comes back, the journals are
// read, and the ends are dismissed. Each action is printed.
#![tactic(auto)]

mod connecting;
mod ends;

use commissioned::{commission, dismiss};
use connecting::live;
use outputs::try_outputs;

fn main(rt: HostRuntime) -> anyhow::Result<()> {
    walk(&rt)
}

fn walk(rt: &HostRuntime) -> anyhow::Result<()> {
    try_outputs(rt)?;
    let mut master = commission(rt)?;
    let lived = live(rt, &mut master);
    let dismissed = dismiss(rt, master);
    lived?;
    dismissed?;
    Ok(())
}
