// Two rows of the journal, and the bounds of the device codes.
use crate::device_code::DeviceCode;
use crate::fault::Fault;
use crate::line::Line;
use crate::state::State;
use std::test::Fail;

#[test]
fn rows(rt: HostRuntime) -> Result<(), Fail> {
    let frame = Line {
        fault: Fault::InvalidCrc,
        state: State::Data,
        command: 0x36,
    };
    let row = format!(in rt.alloc(); "{frame}")?;
    assert_eq!(rt;
        row.as_str(),
        "code 4 (wrong CRC), layer 1 (frame), state 5 (Data), command 0x36"
    );
    let tick = Line {
        fault: Fault::WatchdogExpired,
        state: State::Data,
        command: 0,
    };
    let row = format!(in rt.alloc(); "{tick}")?;
    assert_eq!(rt;
        row.as_str(),
        "code 5 (the watchdog time is over), layer 2 (connection), state 5 (Data), command 0x00"
    );
    Ok(())
}

#[test]
fn device_codes(rt: HostRuntime) -> Result<(), Fail> {
    assert_eq!(rt; DeviceCode::new(127), None);
    let code = DeviceCode::new(128).ok_or("128 is refused")?;
    assert_eq!(rt; Fault::Device(code).number(), 128);
    assert_eq!(rt; Fault::Device(code).layer().number(), 3);
    Ok(())
}
