//! What each side keeps to itself: where its call stands, its own ring, and its positions.

/// Where a put stands, by the row that it makes next, with the item and the free ring in hand.
#[derive(Clone, Copy)]
pub enum Put<K> {
    Idle,
    P1(K),
    P2(K),
    P3(K, u8),
    P4(K, u8),
    P5(K, u8),
    P6(K, u8),
    P7(K),
    P8(K),
}

/// Where a take stands, by the row that it makes next, with the next ring or the item in hand.
#[derive(Clone, Copy)]
pub enum Take<K> {
    Idle,
    T1,
    T2,
    T3,
    T4,
    T5(u8),
    T6(u8),
    T7(u8),
    T8,
    T9(K),
}

/// A side's own ring, and its positions in the rings, in the next list and in the free list.
#[derive(Clone, Copy)]
pub struct Places {
    pub ring: u8,
    // for as many rings as a lane can have; there is no heap here
    pub at: [u8; 8],
    pub next: u8,
    pub free: u8,
}

/// A cell that a side comes to: where it stands in its own ring, in the next list or in the free list, or the mark.
#[derive(Clone, Copy)]
pub enum Spot {
    Own,
    Next,
    Free,
    Mark,
}

/// A side, by the stages of its calls.
#[derive(Clone, Copy)]
pub struct Hand<S> {
    pub stage: S,
    pub steps: u8,
    pub places: Places,
}

pub type Feeder<K> = Hand<Put<K>>;

pub type Drawer<K> = Hand<Take<K>>;
