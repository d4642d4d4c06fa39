// The blocks that a master sends, and their pieces.
ghost use Rattle.std.specs.Prelude.{◌≡◌, ◌≤◌};
ghost use Rattle.outlet.specs.Blocks.{connection_block, parameter_block, piece, state_of, command_of, count_of, contents};

use crate::user::UserOctets;
use faults::state::State;
use frame::command::Command;
use frame::outgoing::with_zeros;
use length::DataLength;
use plan::SealedPlan;

#[derive(Clone, Copy)]
pub enum Block {
    Connection,
    Parameter,
}

impl Block {
    // The state in which its pieces are out.
    pub fn state(self) -> State
        ensures { result ≡ state_of self }
    {
        match self {
            Block::Connection => State::Connection,
            Block::Parameter => State::Parameter,
        }
    }

    // The kind of frame that carries its pieces.
    pub fn command(self) -> Command
        ensures { result ≡ command_of self }
    {
        match self {
            Block::Connection => Command::Connection,
            Block::Parameter => Command::Parameter,
        }
    }

    // How many octets of it are sent.
    pub fn count(self, plan: &SealedPlan) -> usize
        ensures value { result ≡ count_of plan.now self }
        ensures high_bound { result ≤ 22 }
    {
        match self {
            Block::Connection => 4,
            Block::Parameter => 6 + plan.user_octets() as usize,
        }
    }

    // Its octets, with zeros behind those that are sent.
    pub fn octets(self, plan: &SealedPlan, user: &UserOctets) -> [u8; 64]
        ensures { result ≡ contents plan.now user.now self }
    {
        match self {
            Block::Connection => connection_block(plan.id(), plan.address()),
            Block::Parameter => parameter_block(plan.watchdog(), plan.user_octets(), &user.octets),
        }
    }
}

// The connection block: the connection ID and the slave address.
#[tactic(auto, unfolding(crate::specs::Blocks::connection_block))]
fn connection_block(id: u16, address: u16) -> [u8; 64]
    ensures { result ≡ connection_block id address }
{
    let mut block = [0; 64];
    block[0..2].copy_from_slice(&id.to_le_bytes());
    block[2..4].copy_from_slice(&address.to_le_bytes());
    block
}

// The parameter block: 2, the watchdog time, and the user octets behind their count.
fn parameter_block(watchdog: u16, count: u16, user: &[u8; 16]) -> [u8; 64]
    requires { count ≤ 16 }
    ensures { result ≡ parameter_block watchdog count user.now }
{
    let [low, high] = watchdog.to_le_bytes();
    let [count_low, count_high] = count.to_le_bytes();
    let mut block = [0; 64];
    block[0..6].copy_from_slice(&[2, 0, low, high, count_low, count_high]);
    let count = count as usize;
    block[6..6 + count].copy_from_slice(&user[0..count]);
    block
}

// The piece of a block that begins there, with zeros behind it. None begins past 32.
#[tactic(auto, unfolding(crate::specs::Blocks::piece))]
pub fn piece(size: DataLength, at: u8, block: &[u8; 64]) -> [u8; 32]
    ensures { result ≡ piece size.octets at block.now }
{
    let d = size.octets();
    let from = at.min(32) as usize;
    with_zeros(&block[from..from + d])
}
