// What calls of an end answer.
use faults::line::Line;
use faults::state::State;

// A tick or a reset: the state after it, and the line that it gave, if any.
#[derive(Clone, Copy)]
pub struct Answer {
    pub state: State,
    pub line: Option<Line>,
}

// A frame: also whether it was taken. A flag and no `Result`: a taken frame whose release was refused has a line too.
#[derive(Clone, Copy)]
pub struct FrameAnswer {
    pub state: State,
    pub taken: bool,
    pub line: Option<Line>,
}
