//! One thing for each side.
ghost use Rattle.std.specs.Prelude.{◌≡◌};
ghost use Rattle.std.specs.Borrow.{sem};
ghost use Rattle.memory.specs.Sides.{own_of, lends_own};

use crate::Side;

#[derive(Drop)]
pub(crate) struct Sides<T> {
    pub(crate) feeder: T,
    pub(crate) drawer: T,
}

impl<T> Sides<T> {
    pub(crate) fn of(&self, side: Side) -> &T
        ensures { result.now ≡ own_of side self.now }
    {
        match side {
            Side::Feeder => &self.feeder,
            Side::Drawer => &self.drawer,
        }
    }

    pub(crate) fn of_mut(&mut self, side: Side) -> &mut T
        ensures* writes_back { sem 𝓛 (lends_own T.row side self.entry result) }
        ensures value { result.now ≡ own_of side self.old }
    {
        match side {
            Side::Feeder => &mut self.feeder,
            Side::Drawer => &mut self.drawer,
        }
    }
}
