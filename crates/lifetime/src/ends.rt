// The ends of the connection, and what is printed of them.
ghost use Rattle.std.specs.Prelude.{◌≡◌, [], IfOk, Ok};
ghost use Rattle.journal.specs.Held.{entries};
ghost use Rattle.connection.specs.Driving.{Exchanging};
ghost use Rattle.lifetime.specs.Keeping.{KeepsPlan};

use connection::{Sessions, exchange};
use faults::line::Line;
use hexadecimal::Hex;
use journal::Journal;
use master_end::Master;
use profile::Profile;
use profiles::BankProfile;
use sink::Sink;
use sinks::Bank;
use slave_end::Slave;

// Frames of 4 data octets have 11 octets.
const FRAME: usize = 11;

pub const SESSIONS: Sessions = Sessions {
    master: 0xA1B2,
    slave: 0xC3D4,
};

// Both ends of the module's connection, each with its journal.
pub struct Ends<'a> {
    pub master: &'a mut Master<Bank>,
    pub slave: Slave<Bank, BankProfile>,
    pub of_master: Journal<'a, Line>,
    pub of_slave: Journal<'a, Line>,
}

impl Ends<'_> {
    // One exchange, with the frame that the master sends and what it leaves.
    pub fn step(
        &mut self,
        rt: &HostRuntime,
        count: usize,
        latest: [u8; 67],
    ) -> anyhow::Result<[u8; 67]>
        ensures exchanging { IfOk result (λ next. Exchanging ⟦<Bank as Sink>⟧ ⟦<Bank as Sink>⟧ ⟦<BankProfile as Profile>⟧ self.old.master.now self.old.slave SESSIONS latest (Ok next) self.new.master.now self.new.slave self.old.of_master self.new.of_master self.old.of_slave self.new.of_slave) }
        ensures plan { KeepsPlan self.old self.new }
    {
        let frame = Hex(&latest[..FRAME]);
        println!(rt; "exchange {count}: the master sends {frame}")?;
        let next = exchange(
            self.master,
            &mut self.slave,
            latest,
            SESSIONS,
            &mut self.of_master,
            &mut self.of_slave,
        )?;
        self.tell(rt)?;
        Ok(next)
    }

    // The states of both ends, and what the module's outputs show.
    pub fn tell(&self, rt: &HostRuntime) -> anyhow::Result<()> {
        let of_master = self.master.state();
        let of_slave = self.slave.state();
        let shown = self.slave.shows();
        let outputs = Hex(&shown[..4]);
        println!(rt;
            "  master in state {of_master}, slave in state {of_slave}, outputs {outputs}"
        )?;
        Ok(())
    }

    // Reads both journals out.
    pub fn read_journals(&mut self, rt: &HostRuntime) -> anyhow::Result<()>
        ensures read { IfOk result (λ _. (entries self.new.of_master ≡ []) × (entries self.new.of_slave ≡ [])) }
        ensures plan { KeepsPlan self.old self.new }
    {
        read_out(rt, "master", &mut self.of_master)?;
        read_out(rt, "slave", &mut self.of_slave)?;
        let missed = self.slave.missed(&self.of_slave);
        println!(rt; "lines that met a full journal: {missed}")?;
        Ok(())
    }
}

// Reads a journal out, line by line.
fn read_out(rt: &HostRuntime, whose: &str, journal: &mut Journal<'_, Line>) -> anyhow::Result<()>
    ensures { IfOk result (λ _. entries journal.new ≡ []) }
{
    let held = journal.held();
    println!(rt; "the journal of the {whose}: {held} lines")?;
    while let Some(line) = journal.read_out() {
        println!(rt; "  {line}")?;
    }
    Ok(())
}
