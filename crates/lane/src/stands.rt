//! What both sides do alike: begin a call, store, go on to another row, and end the call.
ghost use Rattle.std.specs.Prelude.{◌≡◌, ◌≢◌, ℕ, ◌+◌, ◌<◌, ◌≤◌, None, length, MatchResult, MatchBool};
ghost use Rattle.memory.specs.declared.Side.{Side};
ghost use Rattle.memory.specs.declared.Side.TheVariants.{Feeder, Drawer};
ghost use Rattle.lane.specs.Ends.{Fits, Begun, NotBegun, NotMade};
ghost use Rattle.lane.specs.declared.ends.End.TheVariants as either;
ghost use Rattle.lane.specs.Layout.{Within, words_of};
ghost use Rattle.lane.specs.Moves.{StoredOn};
ghost use Rattle.lane.specs.Stages.{take_ring, take_steps};
ghost use Rattle.lane.specs.Hands.{first_hand, hand_begun, hand_to, hand_done, over};
ghost use Rattle.lane.specs.TakeTable.{Found};
ghost use Rattle.lane.specs.declared.sides.Put.TheVariants as put;
ghost use Rattle.lane.specs.declared.sides.Take.TheVariants as take;

use crate::answers::{Ended, TakeAnswer};
use crate::ends::{Busy, Idle, NoStep, Unbegun};
use crate::memory_calls::store;
use crate::shapes::Shape;
use crate::sides::{Hand, Places, Put, Spot, Take};
use memory::{Memory, Side};
use words::Kind;

/// The stages of a side's calls.
pub(crate) trait Stage: Copy {
    // where no call is under way
    ghost idle: { Self };

    // whose calls these are
    ghost side: { Side };

    fn idle() -> Self
        ensures { result ≡ idle };

    fn is_idle(&self) -> bool
        ensures { MatchBool result (self.now ≡ idle) (self.now ≢ idle) };

    fn side() -> Side
        ensures { result ≡ side };
}

impl<K: Kind> Stage for Put<K> {
    ghost idle = { put.Idle };

    ghost side = { Feeder };

    fn idle() -> Put<K> {
        Put::Idle
    }

    fn is_idle(&self) -> bool {
        matches!(self, Put::Idle)
    }

    fn side() -> Side {
        Side::Feeder
    }
}

impl<K: Kind> Stage for Take<K> {
    ghost idle = { take.Idle };

    ghost side = { Drawer };

    fn idle() -> Take<K> {
        Take::Idle
    }

    fn is_idle(&self) -> bool {
        matches!(self, Take::Idle)
    }

    fn side() -> Side {
        Side::Drawer
    }
}

impl<S: Stage> Hand<S> {
    /// A side with no call under way, at the beginning of its lists but for the free one.
    pub(crate) fn new(free: u8) -> Hand<S>
        ensures { result ≡ first_hand S.Stage.idle free }
    {
        Hand {
            stage: S::idle(),
            steps: 0,
            places: Places {
                ring: 0,
                at: [0; 8],
                next: 0,
                free,
            },
        }
    }

    // a call begins at its first row, if none is under way and the end is this lane's
    pub(crate) fn begin<E, T: Copy>(
        &mut self,
        first: S,
        lane: u32,
        end: Idle<E>,
        item: T,
    ) -> Result<Busy<E>, Unbegun<E, T>>
        ensures { MatchResult result
            (λ b. Begun (Fits lane S.Stage.idle self.old.stage) (hand_begun self.old first) self.new end b)
            (λ e. NotBegun (Fits lane S.Stage.idle self.old.stage) self.old self.new end item e) }
    {
        if !self.stage.is_idle() || end.lane != lane {
            return Err(Unbegun { end, item });
        }
        self.stage = first;
        self.steps = 0;
        Ok(end.begin())
    }

    // an end for a step: it is this lane's, and a call is under way
    pub(crate) fn under_way<E>(&self, lane: u32, end: Busy<E>) -> Result<Busy<E>, NoStep<E>>
        ensures { MatchResult result
            (λ b. (b ≡ end) × Fits lane S.Stage.idle self.now.stage (either.Busy end))
            (λ e. NotMade (Fits lane S.Stage.idle self.now.stage) self.now self.now end e) }
    {
        if end.lane != lane || self.stage.is_idle() {
            return Err(NoStep { end });
        }
        Ok(end)
    }

    // stores a word in a cell that the side comes to, and moves the side's position on
    pub(crate) fn store<M: Memory>(&mut self, memory: &mut M, shape: Shape, spot: Spot, word: u64)
        requires within { Within shape.rings shape.cells self.old.places }
        requires room { words_of shape.rings shape.cells ≤ length (M.Memory.meaning memory.old).landed }
        ensures { StoredOn M.Memory shape.rings shape.cells S.Stage.side spot word self.old self.new memory.old memory.new }
    {
        store(memory, S::side(), self.places.cell(shape, spot), word);
        self.places = self.places.moved_on(shape, spot);
    }

    // the call goes on at this row
    pub(crate) fn stand<A>(&mut self, stage: S) -> Option<Ended<A>>
        requires { self.old.steps < 9 }
        ensures { (self.new ≡ hand_to self.old stage self.old.places) × (result ≡ None) }
    {
        self.stage = stage;
        self.steps += 1;
        None
    }

    // the call is over with this answer
    pub(crate) fn finish<A>(&mut self, answer: A) -> Option<Ended<A>>
        requires { self.old.steps < 9 }
        ensures { (self.new ≡ hand_done S.Stage.idle self.old.places) × (result ≡ over self.old answer) }
    {
        let steps = self.steps + 1;
        self.stage = S::idle();
        self.steps = 0;
        Some(Ended { answer, steps })
    }
}

impl<K: Kind> Hand<Take<K>> {
    // An item goes to the last row; a word of no item ends the call.
    pub(crate) fn found(&mut self, w: u64) -> Option<Ended<TakeAnswer<K>>>
        requires { self.old.steps < 8 }
        ensures found { Found K.Kind self.old w self.new result }
        ensures kept { (self.new.places ≡ self.old.places) × (take_ring self.new.stage ≡ 0) × (self.new.steps ≤ take_steps self.new.stage) }
    {
        match K::read(w) {
            Ok(item) => self.stand(Take::T9(item)),
            Err(_) => self.finish(TakeAnswer::Damaged),
        }
    }
}
