// What a master sends from its link.
ghost use Rattle.std.specs.Prelude.{◌≡◌, Ok};
ghost use Rattle.shared_end.specs.Outcomes.{Comes};
ghost use Rattle.outlet.specs.Steps.{piece_at, piece_out, data_out, next_out};

use crate::Outlet;
use crate::blocks::{Block, piece};
use faults::state::State;
use plan::SealedPlan;
use shared_end::link::Link;
use shared_end::step::{Act, Step};

impl Outlet {
    // Behind the piece that was out comes the next one; behind the last of a block the first of the next block, or a
    // data frame.
    pub fn send_next(&mut self, link: &mut Link, plan: &SealedPlan, block: Block) -> Step
        ensures { Comes (next_out link.old self.old plan.now block) link.old self.old (Ok result) link.new self.new }
    {
        let next = self.at as usize + link.size.octets();
        if next < block.count(plan) {
            return self.send(link, plan, block, next as u8);
        }
        match block {
            Block::Connection => self.send(link, plan, Block::Parameter, 0),
            Block::Parameter => self.send_data(link, plan, Act::Keep),
        }
    }

    // The piece of a block that begins there.
    pub fn send(&mut self, link: &mut Link, plan: &SealedPlan, block: Block, at: u8) -> Step
        ensures { Comes (piece_out link.old self.old plan.now block at) link.old self.old (Ok result) link.new self.new }
    {
        self.at = at;
        let piece = self.piece_out(link, plan, block);
        let reply = link.write(block.command(), plan.id(), &piece);
        Step {
            state: block.state(),
            act: Act::Keep,
            reply,
        }
    }

    pub fn send_data(&self, link: &mut Link, plan: &SealedPlan, act: Act) -> Step
        ensures { Comes (data_out link.old self.now plan.now act) link.old self.now (Ok result) link.new self.now }
    {
        let reply = link.write_data(plan.id());
        Step {
            state: State::Data,
            act,
            reply,
        }
    }

    // The piece of a block that is out.
    pub fn piece_out(&self, link: &Link, plan: &SealedPlan, block: Block) -> [u8; 32]
        ensures { result ≡ piece_at link.now self.now plan.now block self.now.at }
    {
        piece(link.size, self.at, &block.octets(plan, &self.user))
    }
}
