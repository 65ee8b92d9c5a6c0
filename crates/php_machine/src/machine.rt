// A run that is under way.

use backward_list::Backward;
use php_rest::{Frame, Now};
use php_state::State;
use php_tally::{End, Tally};

/// What a run that is under way holds. Contracts see it by `whole`.
#[derive(Drop)]
pub struct Machine<'a> {
    pub tally: Tally<'a>,
    pub state: State<'a>,
    pub stack: Backward<Frame<'a>>,
}

/// What comes next, or the end of the run.
#[derive(Drop)]
pub enum Next<'a> {
    More(Now<'a>),
    Over(End<'a>),
}
