// A journal with two places takes the lines of three faults: it fills, misses the third, and is read out.
use anyhow::anyhow;
use faults::device_code::DeviceCode;
use faults::fault::Fault;
use faults::line::Line;
use faults::state::State;
use journal::Journal;

pub fn keep_journal(rt: &HostRuntime) -> anyhow::Result<()> {
    let crc = Line {
        fault: Fault::InvalidCrc,
        state: State::Data,
        command: 0x36,
    };
    let tick = Line {
        fault: Fault::WatchdogExpired,
        state: State::Data,
        command: 0,
    };
    let mut places = [crc; 2];
    let mut journal = Journal::new(&mut places);
    tell(rt, "make a journal", &journal)?;

    put(rt, &mut journal, crc)?;
    put(rt, &mut journal, tick)?;
    put(rt, &mut journal, refused_parameters()?)?;
    read_out(rt, &mut journal)?;
    read_out(rt, &mut journal)?;
    read_out(rt, &mut journal)
}

// The line of a module whose profile refuses the user parameters with a code of its own.
fn refused_parameters() -> anyhow::Result<Line> {
    let code = DeviceCode::new(128).ok_or_else(|| anyhow!("128 is no device code"))?;
    Ok(Line {
        fault: Fault::Device(code),
        state: State::Parameter,
        command: 0x36,
    })
}

fn put(rt: &HostRuntime, journal: &mut Journal<'_, Line>, line: Line) -> anyhow::Result<()> {
    println!(rt; "put: {line}")?;
    let full = journal.is_full();
    journal.put(line);
    tell(rt, if full { "missed" } else { "held" }, journal)
}

fn read_out(rt: &HostRuntime, journal: &mut Journal<'_, Line>) -> anyhow::Result<()> {
    match journal.read_out() {
        Some(line) => println!(rt; "read out: {line}")?,
        None => println!(rt; "read out: none")?,
    }
    tell(rt, "left", journal)
}

fn tell(rt: &HostRuntime, what: &str, journal: &Journal<'_, Line>) -> anyhow::Result<()> {
    let held = journal.held();
    let places = journal.places();
    let missed = journal.missed();
    println!(rt; "{what}: {held} of {places} places taken, {missed} missed")?;
    Ok(())
}
