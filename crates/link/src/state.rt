// Where the link of a converter stands, and what each event comes to in each state.
ghost use Rattle.std.specs.Prelude.{◌≡◌};
ghost use Rattle.link.specs.States.{decided, filled, filled_state, link_grid};
ghost use Rattle.link.specs.declared.state.State.TheVariants.{Filling};

use crate::answers::Filled;
use crate::refusal::Refusal;
use meaning::{Channels, Faithful};
use stage::{Grid, lattice_nodes};

// A converter's link.
#[derive(Clone, Copy, PartialEq, Eq, Debug)]
pub enum State {
    // There is none.
    Empty,
    // It has so many grid points, and its nodes before `next` are stored.
    Filling { grid: Grid, next: usize },
    // All its nodes are stored.
    Full { grid: Grid },
}

// What happens to a converter: one event for each of the seven calls.
#[derive(Clone, Copy)]
pub(crate) enum Event {
    Begin { grid: Grid },
    Fill { budget: usize },
    Row,
    LinkRow,
    Quote,
    Write,
    Drop,
}

// The nodes that a fill stores: from the first on, in a link with that grid.
#[derive(Clone, Copy)]
pub(crate) struct Stores {
    pub grid: Grid,
    pub first: usize,
    pub filled: Filled,
}

// What an event comes to in a state that does not refuse it.
#[derive(Clone, Copy)]
pub(crate) struct Outcome {
    // The state that follows.
    pub state: State,
    // The grid of its link, if there is one.
    pub link: Option<Grid>,
    // What a fill stores; other calls store nothing.
    pub stores: Option<Stores>,
}

impl Outcome {
    // Nothing is stored.
    fn of(state: State) -> Outcome
        ensures { result ≡ record { state = state; link = link_grid state; stores = None } }
    {
        Outcome {
            state,
            link: state.grid(),
            stores: None,
        }
    }

    // Some nodes are stored in a link that was filling.
    fn filled(ins: Channels, grid: Grid, next: usize, budget: usize) -> Outcome
        ensures { let link = Filling grid next in
            result ≡ record {
              state = filled_state ins link budget;
              link = Some grid;
              stores = Some (record { grid = grid; first = next; filled = filled ins link budget });
            } }
    {
        let missing = lattice_nodes(ins, grid.points()).saturating_sub(next);
        let stored = budget.min(missing);
        let state = if budget < missing {
            State::Filling {
                grid,
                next: next + stored,
            }
        } else {
            State::Full { grid }
        };
        let filled = Filled {
            stored,
            missing: missing - stored,
        };
        Outcome {
            state,
            link: Some(grid),
            stores: Some(Stores {
                grid,
                first: next,
                filled,
            }),
        }
    }
}

impl State {
    // The grid of the link, if there is one.
    pub fn grid(self) -> Option<Grid>
        ensures { result ≡ link_grid self }
    {
        match self {
            State::Empty => None,
            State::Filling { grid, .. } | State::Full { grid } => Some(grid),
        }
    }

    // What an event comes to in this state, or why it is refused.
    pub(crate) fn decide(self, ins: Channels, event: Event) -> Result<Outcome, Refusal>
        ensures { result ≡ decided ins self event }
    {
        match (self, event) {
            (_, Event::Begin { grid }) => Ok(Outcome::of(State::Filling { grid, next: 0 })),
            (_, Event::Drop) => Ok(Outcome::of(State::Empty)),
            (_, Event::Row | Event::Quote) | (State::Full { .. }, Event::LinkRow | Event::Write) =>
                Ok(Outcome::of(self)),
            (State::Filling { grid, next }, Event::Fill { budget }) => {
                Ok(Outcome::filled(ins, grid, next, budget))
            }
            (State::Empty, Event::Fill { .. } | Event::LinkRow | Event::Write) => {
                Err(Refusal::NoLink)
            }
            (State::Full { .. }, Event::Fill { .. }) => Err(Refusal::FullLink),
            (State::Filling { .. }, Event::LinkRow | Event::Write) => Err(Refusal::FillingLink),
        }
    }
}

impl Faithful for State {
    ghost use Rattle.std.proofs.Common.{rules};

    ghost equal = { Prim.search rules };

    ghost copied = { Prim.search rules };
}
