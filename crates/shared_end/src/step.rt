// What a step of an end comes to.
use faults::fault::Fault;
use faults::state::State;
use frame::outgoing::Outgoing;

// What a step tells the sink.
#[derive(Clone, Copy)]
pub enum Act {
    Keep,
    Clear,
    Release([u8; 32]),
}

// A frame was taken: the state after it, what the sink is told, and the frame that goes out.
#[derive(Clone, Copy)]
pub struct Step {
    pub state: State,
    pub act: Act,
    pub reply: Outgoing,
}
