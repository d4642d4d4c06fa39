// What a slave keeps of the blocks that come in, and the steps that it makes of frames.
#![tactic(auto)]

mod judging;
mod steps;

#[derive(Clone, Copy)]
pub struct Inlet {
    // the slave's own address
    pub address: u16,
    // the connection ID, kept at the first Connection frame
    pub id: u16,
    // the block that is coming in, and how many octets of it are stored: an array and a count, since firmware has no heap
    pub block: [u8; 64],
    pub stored: usize,
}

// The numbers of a profile: how many user octets there are, and the lowest and the highest watchdog time.
#[derive(Clone, Copy)]
pub struct Limits {
    pub user_octets: u16,
    pub lowest: u16,
    pub highest: u16,
}
