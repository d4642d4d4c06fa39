// Takes the connection of one module from its first draft to its dismissal, tries the parts that the connection is built
// of, and prints each action.
#![tactic(auto)]

mod framing;
mod journaling;

use commissioning::commission;
use framing::exchange_frames;
use journaling::keep_journal;
use outputs::try_outputs;

fn main(rt: HostRuntime) -> anyhow::Result<()> {
    walk(&rt)
}

fn walk(rt: &HostRuntime) -> anyhow::Result<()> {
    commission(rt)?;
    exchange_frames(rt)?;
    try_outputs(rt)?;
    keep_journal(rt)
}
