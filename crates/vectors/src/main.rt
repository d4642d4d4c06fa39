// Holds the CRC and the frames to vectors that were not made by this library.
#![tactic(auto)]

mod frames;
mod tables;

use crc::part::Shared;
use crc::register::Register;
use frame::outgoing::{Outgoing, with_zeros};
use frames::{FRAMES, Row};
use length::DataLength;
use tables::{OCTET_AND_ZEROS, ONE_OCTET};

fn main(rt: HostRuntime) -> anyhow::Result<()> {
    let one = agreeing(&ONE_OCTET, |octet| Register::zero().feed(octet));
    println!(rt; "one octet fed to a zero register: {one} of 256 entries agree")?;
    let zeros = agreeing(&OCTET_AND_ZEROS, |octet| {
        Register::zero().feed(octet).feed(0).feed(0).feed(0)
    });
    println!(rt; "one octet and three zeros: {zeros} of 256 entries agree")?;
    let whole = FRAMES.iter().filter(|row| agrees(row)).count();
    println!(rt; "whole frames: {whole} of 12 agree")?;
    Ok(())
}

// How many entries of the table the register agrees with that was fed for the octet of their place.
fn agreeing<F: Fn(u8) -> Register>(table: &[u16; 256], fed: F) -> usize
    requires { F.IsAlwaysCallable fed }
{
    (0..=255u8)
        .zip(table)
        .filter(|(octet, entry)| fed(*octet).bits() == **entry)
        .count()
}

// Whether the library writes the frame of the row.
fn agrees(row: &Row) -> bool {
    let Ok(size) = DataLength::new(row.size) else {
        return false;
    };
    if row.given.len() > 32 {
        return false;
    }
    let shared = Shared::new(row.last, row.id, row.number, row.command.octet());
    Outgoing::new(size, shared, &with_zeros(row.given)).octets() == row.written
}
