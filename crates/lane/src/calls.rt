//! The calls of the two sides, through their ends, and what becomes of the memory.
ghost use Rattle.std.specs.Prelude.{◌≡◌, ℕ, MatchResult};
ghost use Rattle.lane.specs.Moments.{moment, Landing, Draining};
ghost use Rattle.lane.specs.Ends.{PutBegun, PutUnbegun, PutMade, PutUnmade, TakeBegun, TakeUnbegun, TakeMade, TakeUnmade};

use crate::ends::{
    DrawerBusy, DrawerIdle, FeederBusy, FeederIdle, NoPut, NoPutStep, NoTake, NoTakeStep,
    PutStepped, TakeStepped,
};
use crate::lanes::Lane;
use crate::sides::{Put, Take};
use memory::{Memory, Side};
use words::Kind;

impl<K: Kind, M: Memory> Lane<K, M> {
    /// Begins a put of this item, which makes no memory call.
    pub fn begin_put(&mut self, end: FeederIdle, item: K) -> Result<FeederBusy, NoPut<K>>
        ensures { MatchResult result
            (λ b. PutBegun (moment self.old) (moment self.new) end item b)
            (λ e. PutUnbegun (moment self.old) (moment self.new) end item e) }
    {
        self.feeder.begin(Put::P1(item), self.number, end, item)
    }

    /// Makes one step of the put under way: one memory call.
    pub fn put_step(&mut self, end: FeederBusy) -> Result<PutStepped<K>, NoPutStep>
        ensures { MatchResult result
            (λ s. PutMade M.Memory K.Kind (moment self.old) (moment self.new) end s)
            (λ e. PutUnmade (moment self.old) (moment self.new) end e) }
    {
        let end = self.feeder.under_way(self.number, end)?;
        Ok(end.after(self.put_row()))
    }

    /// Begins a take, which makes no memory call.
    pub fn begin_take(&mut self, end: DrawerIdle) -> Result<DrawerBusy, NoTake>
        ensures { MatchResult result
            (λ b. TakeBegun (moment self.old) (moment self.new) end b)
            (λ e. TakeUnbegun (moment self.old) (moment self.new) end e) }
    {
        self.drawer.begin(Take::T1, self.number, end, ())
    }

    /// Makes one step of the take under way: one memory call.
    pub fn take_step(&mut self, end: DrawerBusy) -> Result<TakeStepped<K>, NoTakeStep>
        ensures { MatchResult result
            (λ s. TakeMade M.Memory K.Kind (moment self.old) (moment self.new) end s)
            (λ e. TakeUnmade (moment self.old) (moment self.new) end e) }
    {
        let end = self.drawer.under_way(self.number, end)?;
        Ok(end.after(self.take_row()))
    }

    /// Lands a waiting store of this side.
    pub fn land(&mut self, side: Side, pick: usize)
        ensures { Landing M.Memory side pick (moment self.old) (moment self.new) }
    {
        self.memory.land(side, pick);
    }

    /// Lands all that waits.
    pub fn drain(&mut self)
        ensures { Draining M.Memory (moment self.old) (moment self.new) }
    {
        self.memory.drain();
    }

    /// Gives the memory back, as the lane leaves it.
    pub fn into_memory(self) -> M
        ensures { result ≡ (moment self).memory }
    {
        let Lane {
            memory,
            number: _,
            shape: _,
            feeder: _,
            drawer: _,
        } = self;
        memory
    }
}
