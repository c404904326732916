//! The shapes: what each side does, and the outcome that is asked about.

/// Which of the two looks of a shape.
#[derive(Clone, Copy)]
pub enum Which {
    First,
    Second,
}

#[derive(Clone, Copy)]
pub enum Step {
    Store(usize, u64),
    Bar,
    // a look at an address
    Look(usize, Which),
}

#[derive(Clone, Copy)]
pub enum Outcome {
    // what was seen first and second
    Seen(u64, u64),
    // what has landed at address 0 in the end
    Ends(u64),
}

#[derive(Clone, Copy)]
pub struct Shape {
    pub name: &'static str,
    pub asks: &'static str,
    pub feeder: &'static [Step],
    pub drawer: &'static [Step],
    pub outcome: Outcome,
}

const X: usize = 0;

const Y: usize = 1;

// data is at X, and the flag that announces it at Y
const PASS: &[Step] = &[Step::Store(X, 1), Step::Store(Y, 1)];

const PASS_BARRED: &[Step] = &[Step::Store(X, 1), Step::Bar, Step::Store(Y, 1)];

const RECEIVE: &[Step] = &[Step::Look(Y, Which::First), Step::Look(X, Which::Second)];

const TWICE: &[Step] = &[Step::Store(X, 1), Step::Store(X, 2)];

const LOOK_TWICE: &[Step] = &[Step::Look(X, Which::First), Step::Look(X, Which::Second)];

pub static SHAPES: [Shape; 11] = [
    Shape {
        name: "message passing",
        asks: "flag seen, data not",
        feeder: PASS,
        drawer: RECEIVE,
        outcome: Outcome::Seen(1, 0),
    },
    Shape {
        name: "message passing",
        asks: "flag seen, data too",
        feeder: PASS,
        drawer: RECEIVE,
        outcome: Outcome::Seen(1, 1),
    },
    Shape {
        name: "message passing with a bar",
        asks: "flag seen, data not",
        feeder: PASS_BARRED,
        drawer: RECEIVE,
        outcome: Outcome::Seen(1, 0),
    },
    Shape {
        name: "message passing with a bar",
        asks: "flag seen, data too",
        feeder: PASS_BARRED,
        drawer: RECEIVE,
        outcome: Outcome::Seen(1, 1),
    },
    Shape {
        name: "store buffering",
        asks: "neither sees the other's store",
        feeder: &[Step::Store(X, 1), Step::Look(Y, Which::First)],
        drawer: &[Step::Store(Y, 1), Step::Look(X, Which::Second)],
        outcome: Outcome::Seen(0, 0),
    },
    Shape {
        name: "store buffering with bars",
        asks: "neither sees the other's store",
        feeder: &[Step::Store(X, 1), Step::Bar, Step::Look(Y, Which::First)],
        drawer: &[Step::Store(Y, 1), Step::Bar, Step::Look(X, Which::Second)],
        outcome: Outcome::Seen(0, 0),
    },
    Shape {
        name: "two stores to one address",
        asks: "the younger seen, then the older",
        feeder: TWICE,
        drawer: LOOK_TWICE,
        outcome: Outcome::Seen(2, 1),
    },
    Shape {
        name: "two stores to one address",
        asks: "the older seen, then the younger",
        feeder: TWICE,
        drawer: LOOK_TWICE,
        outcome: Outcome::Seen(1, 2),
    },
    Shape {
        name: "own store",
        asks: "not seen by its own side",
        feeder: &[Step::Store(X, 1), Step::Look(X, Which::First)],
        drawer: &[],
        outcome: Outcome::Seen(0, 0),
    },
    Shape {
        name: "both sides to one address",
        asks: "the feeder's word stays",
        feeder: &[Step::Store(X, 1)],
        drawer: &[Step::Store(X, 2)],
        outcome: Outcome::Ends(1),
    },
    Shape {
        name: "both sides to one address",
        asks: "the drawer's word stays",
        feeder: &[Step::Store(X, 1)],
        drawer: &[Step::Store(X, 2)],
        outcome: Outcome::Ends(2),
    },
];
