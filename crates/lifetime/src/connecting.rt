// The life of the connection.
ghost use Rattle.std.specs.Prelude.{◌≡◌};
ghost use Rattle.lifetime.specs.Keeping.{KeepsPlan};

use crate::ends::{Ends, SESSIONS};
use connection::{bring_back, exchanges_needed};
use faults::fault::Fault;
use faults::line::Line;
use faults::state::State;
use hexadecimal::Hex;
use history::running::End;
use journal::Journal;
use master_end::Master;
use profiles::BankProfile;
use shared_end::data_command::DataCommand;
use sink::Sink;
use sinks::Bank;
use slave_end::Slave;

// What a journal's places hold before its first line.
const BLANK: Line = Line {
    fault: Fault::InvalidCommand,
    state: State::Reset,
    command: 0,
};

const ADDRESS: u16 = 85;

// The master keeps its plan, so dismissing it gives back the draft that was sealed.
pub fn live(rt: &HostRuntime, master: &mut Master<Bank>) -> anyhow::Result<()>
    ensures { master.new.plan ≡ master.old.plan }
{
    println!(rt; "make the slave at address {ADDRESS}, with a bank of outputs")?;
    let mut master_places = [BLANK; 4];
    let mut slave_places = [BLANK; 4];
    let slave = Slave::new(master.size(), ADDRESS, Bank::new(), BankProfile);
    let mut ends = Ends {
        master,
        slave,
        of_master: Journal::new(&mut master_places),
        of_slave: Journal::new(&mut slave_places),
    };
    let done = ends.live(rt);
    let Ends {
        master: _master,
        slave,
        of_master: _,
        of_slave: _,
    } = ends;
    let _ = slave.dismiss();
    println!(rt; "dismiss the slave: its outputs are cleared")?;
    done
}

impl Ends<'_> {
    fn live(&mut self, rt: &HostRuntime) -> anyhow::Result<()>
        ensures { KeepsPlan self.old self.new }
    {
        self.bring_up(rt)?;
        self.pull_cable(rt)?;
        self.recover(rt)?;
        self.damage(rt)?;
        self.read_journals(rt)
    }

    // Exchange by exchange: the outputs are set at the promised one, and not before.
    fn bring_up(&mut self, rt: &HostRuntime) -> anyhow::Result<()>
        ensures { KeepsPlan self.old self.new }
    {
        let needed = exchanges_needed(self.master, &self.slave);
        println!(rt; "reset the master; {needed} exchanges bring the connection up")?;
        let mut latest = [0; 67];
        let _ = self.master.reset(&mut self.of_master, &mut latest);
        for count in 1..=needed {
            latest = self.step(rt, count, latest)?;
            if count == 1 {
                println!(rt; "  set 01020304 at the master, for process data")?;
                let _ = self.master.set(&[1, 2, 3, 4], DataCommand::ProcessData);
            }
        }
        Ok(())
    }

    // No frame passes any more, and the ticks of both ends go on until both watchdogs have spoken.
    fn pull_cable(&mut self, rt: &HostRuntime) -> anyhow::Result<()>
        ensures { KeepsPlan self.old self.new }
    {
        println!(rt; "pull the cable")?;
        for count in 1..=100 {
            self.tick(rt, count)?;
        }
        self.tell(rt)
    }

    // One millisecond at both ends.
    fn tick(&mut self, rt: &HostRuntime, count: u32) -> anyhow::Result<()>
        ensures { KeepsPlan self.old self.new }
    {
        let mut reply = [0; 67];
        let answer = self.slave.tick(&mut self.of_slave, &mut reply)?;
        told(rt, count, "slave", answer.line)?;
        let answer = self.master.tick(&mut self.of_master, &mut reply)?;
        told(rt, count, "master", answer.line)
    }

    // A reset of the master and the same number of exchanges bring the connection back.
    fn recover(&mut self, rt: &HostRuntime) -> anyhow::Result<()>
        ensures { KeepsPlan self.old self.new }
    {
        println!(rt; "plug the cable in, and bring the connection back with 0a0b0c0d")?;
        let shown = bring_back(
            self.master,
            &mut self.slave,
            &[10, 11, 12, 13],
            SESSIONS,
            &mut self.of_master,
            &mut self.of_slave,
        )?;
        let outputs = Hex(&shown[..4]);
        println!(rt; "  the outputs show {outputs}")?;
        self.tell(rt)
    }

    // A frame with a wrong CRC clears the outputs and is answered by a Reset frame.
    fn damage(&mut self, rt: &HostRuntime) -> anyhow::Result<()>
        ensures { KeepsPlan self.old self.new }
    {
        let damaged = [0x36, 1, 2, 0, 0, 3, 4, 0, 0, 0x34, 0x12];
        let hex = Hex(&damaged);
        println!(rt; "hand the slave {hex}, a frame with wrong CRCs")?;
        let mut reply = [0; 11];
        let answer = self
            .slave
            .frame(&damaged, 0, &mut self.of_slave, &mut reply)?;
        if let Some(line) = answer.line {
            println!(rt; "  {line}")?;
        }
        let shown = self.slave.shows();
        let outputs = Hex(&shown[..4]);
        let hex = Hex(&reply);
        println!(rt; "  it answers {hex}, and its outputs show {outputs}")?;
        Ok(())
    }
}

fn told(rt: &HostRuntime, count: u32, whose: &str, line: Option<Line>) -> anyhow::Result<()> {
    if let Some(line) = line {
        println!(rt; "  tick {count} of the {whose}: {line}")?;
    }
    Ok(())
}
