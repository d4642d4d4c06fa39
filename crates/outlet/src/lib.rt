// What a master keeps of the blocks that it sends, apart from its plan, and the steps that it makes of frames.
// Link and plan are lent to each step: both ends share what the link is part of, and no step can change a plan that is lent.
// Held here the plan is no plainer: the contract of each step would have to say that it stays.
#![tactic(auto)]

use crate::user::UserOctets;

pub mod blocks;
mod sending;
mod steps;
pub mod user;

#[derive(Clone, Copy)]
pub struct Outlet {
    pub user: UserOctets,
    // where in its block the piece begins that is out
    pub at: u8,
}
