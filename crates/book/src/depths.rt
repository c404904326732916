//! How deep a store buffer can be.
ghost use Rattle.std.specs.Prelude.{◌≤◌};

/// The depth of a store buffer: the entries of each side that it keeps.
#[derive(Clone, Copy, Debug, PartialEq, Eq)]
pub struct Depth {
    pub entries: u8,
    ghost in_range: { (1 ≤ entries) × (entries ≤ 16) },
}
