//! Runs of a shape on a memory, one for each order of steps and landings.
use crate::shapes::{Outcome, Shape, Step, Which};
use memory::{Memory, Side};

#[derive(Clone, Copy)]
enum Move {
    Step(Side),
    // a landing with this pick
    Land(Side, usize),
}

const MOVES: [Move; 6] = [
    Move::Step(Side::Feeder),
    Move::Step(Side::Drawer),
    Move::Land(Side::Feeder, 0),
    Move::Land(Side::Feeder, 1),
    Move::Land(Side::Drawer, 0),
    Move::Land(Side::Drawer, 1),
];

const LENGTH: usize = 7;
// as many as there are rows of seven moves: 6 to the power of 7, written out, since a constant may not call `pow`
const ORDERS: usize = 279_936;

// what was seen
#[derive(Clone, Copy, PartialEq, Eq)]
struct Looks {
    first: u64,
    second: u64,
}

/// What a run came to.
#[derive(Clone, Copy)]
pub struct Ending {
    looks: Looks,
    // what has landed at address 0
    landed: u64,
}

impl Ending {
    fn is(&self, outcome: Outcome) -> bool {
        match outcome {
            Outcome::Seen(first, second) => self.looks == Looks { first, second },
            Outcome::Ends(word) => self.landed == word,
        }
    }
}

fn make_step<M: Memory>(memory: &mut M, side: Side, step: Step, looks: &mut Looks) {
    match step {
        Step::Store(address, word) => {
            let _ = memory.store(side, address, word);
        }
        Step::Bar => memory.bar(side),
        Step::Look(address, which) => {
            if let Ok(word) = memory.look(side, address) {
                match which {
                    Which::First => looks.first = word,
                    Which::Second => looks.second = word,
                }
            }
        }
    }
}

/// Makes the moves that the order's digits name, then the steps that are left, then drains.
pub(crate) fn play<M: Memory>(memory: &mut M, shape: &Shape, order: usize) -> Ending {
    let mut looks = Looks {
        first: 0,
        second: 0,
    };
    let mut feeder = shape.feeder.iter();
    let mut drawer = shape.drawer.iter();
    let mut left = order;
    for _ in 0..LENGTH {
        match MOVES[left % MOVES.len()] {
            Move::Step(side) => {
                let next = match side {
                    Side::Feeder => feeder.next(),
                    Side::Drawer => drawer.next(),
                };
                if let Some(step) = next {
                    make_step(memory, side, *step, &mut looks);
                }
            }
            Move::Land(side, pick) => memory.land(side, pick),
        }
        left /= MOVES.len();
    }
    for step in feeder {
        make_step(memory, Side::Feeder, *step, &mut looks);
    }
    for step in drawer {
        make_step(memory, Side::Drawer, *step, &mut looks);
    }
    memory.drain();
    let landed = memory.look(Side::Feeder, 0).unwrap_or(0);
    Ending { looks, landed }
}

/// Whether some order of steps and landings, as `play` runs it on these words, has the outcome.
pub(crate) fn can_happen<F: Fn(&mut [u64], usize) -> Ending>(outcome: Outcome, play: F) -> bool
    requires { (state : F) (words : _) (order : _) → F.pre state words order }
{
    (0..ORDERS).any(|order| {
        let mut words = [0u64; 2];
        play(&mut words, order).is(outcome)
    })
}
