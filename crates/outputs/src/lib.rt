// The module programmer tries out the output stages, the layers and the bank's parameter rules. Each action is printed.
#![tactic(auto)]

ghost use Rattle.std.specs.Prelude.{◌≡◌, IfOk};
ghost use Rattle.sinks.specs.Banks.{new_bank};

use layers::{HoldOff, Mask};
use profile::Profile;
use profiles::BankProfile;
use sink::Sink;
use sinks::{Bank, Drive};

const FULL: [u8; 32] = [0xFF; 32];

// Answers the bank. Its last release was held off, since a down feedback came before it: the bank is as a new one.
pub fn try_outputs(rt: &HostRuntime) -> anyhow::Result<Bank>
    ensures { IfOk result (λ b. b ≡ new_bank) }
{
    let mut bank = Bank::new();
    println!(rt; "a bank")?;
    release(rt, &mut bank)?;
    clear(rt, &mut bank)?;

    let mut drive = Drive::new();
    println!(rt; "a drive of four switches")?;
    release(rt, &mut drive)?;

    let mut masked = Mask::new([0x3C; 32], bank);
    println!(rt; "a mask of 0x3c over the bank")?;
    release(rt, &mut masked)?;

    let bank = hold_off(rt, masked.into_below())?;
    judge_parameters(rt)?;
    Ok(bank)
}

// A hold-off of 2 shows at the third accepted release; a refused one does not count.
fn hold_off(rt: &HostRuntime, bank: Bank) -> anyhow::Result<Bank>
    ensures { IfOk result (λ b. b ≡ new_bank) }
{
    let mut held = HoldOff::new(2, bank);
    println!(rt; "a hold-off of 2 over the bank, cleared first")?;
    clear(rt, &mut held)?;
    release(rt, &mut held)?;
    release(rt, &mut held)?;
    release(rt, &mut held)?;
    feedback(rt, &mut held, false)?;
    release(rt, &mut held)?;
    feedback(rt, &mut held, true)?;
    release(rt, &mut held)?;
    Ok(held.into_below())
}

fn release<S: Sink>(rt: &HostRuntime, sink: &mut S) -> anyhow::Result<()>
    ensures { sink.new ≡ S.released sink.old FULL }
{
    match sink.release(&FULL) {
        Ok(()) => print!(rt; "  release 0xff: ")?,
        Err(refusal) => print!(rt; "  release 0xff: refused with {refusal}; ")?,
    }
    shows(rt, sink)
}

fn clear<S: Sink>(rt: &HostRuntime, sink: &mut S) -> anyhow::Result<()>
    ensures { sink.new ≡ S.cleared sink.old }
{
    sink.clear();
    print!(rt; "  clear: ")?;
    shows(rt, sink)
}

fn feedback<S: Sink>(rt: &HostRuntime, sink: &mut S, working: bool) -> anyhow::Result<()>
    ensures { sink.new ≡ S.told sink.old working }
{
    sink.feedback(working);
    let word = if sink.is_up() { "up" } else { "down" };
    print!(rt; "  feedback, {word}: ")?;
    shows(rt, sink)
}

fn shows<S: Sink>(rt: &HostRuntime, sink: &S) -> anyhow::Result<()> {
    let octets = sink.shows();
    println!(rt; "shows 0x{:02x}, 0x{:02x} ..", octets[0], octets[1])?;
    Ok(())
}

fn judge_parameters(rt: &HostRuntime) -> anyhow::Result<()> {
    let octets = BankProfile::USER_OCTETS;
    let lowest = BankProfile::LOWEST_WATCHDOG;
    let highest = BankProfile::HIGHEST_WATCHDOG;
    println!(rt; "the bank profile: {octets} user octets, watchdog {lowest} to {highest} ms")?;
    judge(rt, 9)?;
    judge(rt, 10)?;
    judge(rt, 3000)?;
    judge(rt, 3001)
}

fn judge(rt: &HostRuntime, number: u16) -> anyhow::Result<()> {
    let verdict = BankProfile.verdict(&number.to_le_bytes()).number();
    println!(rt; "  parameter {number}: verdict {verdict}")?;
    Ok(())
}
