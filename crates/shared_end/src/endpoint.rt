// What both ends are made of: a state, a link and a sink.
use crate::link::Link;
use faults::state::State;

mod calls;
mod concluding;

pub struct Endpoint<S> {
    pub state: State,
    pub link: Link,
    pub sink: S,
}
