//! The rows of a take.
ghost use Rattle.std.specs.Prelude.{◌≡◌, ◌≢◌, ◌≤◌, length};
ghost use Rattle.lane.specs.TakeTable.{TakeSees};
ghost use Rattle.lane.specs.Moments.{moment, TakeStep};
ghost use Rattle.lane.specs.declared.sides.Take.TheVariants.{Idle};
ghost use Rattle.lane.specs.Layout.{Shaped, Within, words_of};

use crate::answers::{Ended, TakeAnswer};
use crate::lanes::Lane;
use crate::memory_calls::{bar, look};
use crate::rings::{ring_of, word_of};
use crate::shapes::Shape;
use crate::sides::{Drawer, Spot, Take};
use memory::{Memory, Side};
use words::Kind;

// The look of a take, where its row has one.
fn take_look<K: Kind, M: Memory>(memory: &mut M, drawer: &Drawer<K>, shape: Shape) -> u64
    requires within { Within shape.rings shape.cells drawer.now.places }
    requires room { words_of shape.rings shape.cells ≤ length (M.Memory.meaning memory.old).landed }
    ensures sees { TakeSees M.Memory K.Kind shape.rings shape.cells drawer.now.stage drawer.now.places memory.old result memory.new }
    ensures size { length (M.Memory.meaning memory.new).landed ≡ length (M.Memory.meaning memory.old).landed }
{
    let places = &drawer.places;
    match drawer.stage {
        Take::T1 | Take::T3 | Take::T8 => look(memory, Side::Drawer, places.cell(shape, Spot::Own)),
        Take::T2 => look(memory, Side::Drawer, places.cell(shape, Spot::Mark)),
        Take::T4 => look(memory, Side::Drawer, places.cell(shape, Spot::Next)),
        // a row that stores or bars reads nothing of what it sees
        _ => 0,
    }
}

impl<K: Kind, M: Memory> Lane<K, M> {
    pub(crate) fn take_row(&mut self) -> Option<Ended<TakeAnswer<K>>>
        requires { self.old.drawer.stage ≢ Idle }
        ensures { TakeStep M.Memory K.Kind (moment self.old) (moment self.new) result }
    {
        let shape = self.shape;
        let own = self.drawer.places.ring;
        let seen = take_look(&mut self.memory, &self.drawer, shape);
        match (self.drawer.stage, seen) {
            (Take::T1, 0) => self.drawer.stand(Take::T2),
            (Take::T1, w) => self.drawer.found(w),
            (Take::T2, w) => match ring_of(w, shape) {
                Some(n) if n == own => self.drawer.finish(TakeAnswer::Empty),
                Some(_) => self.drawer.stand(Take::T3),
                None => self.drawer.finish(TakeAnswer::Damaged),
            },
            (Take::T3, 0) => self.drawer.stand(Take::T4),
            (Take::T3, w) => self.drawer.found(w),
            (Take::T4, 0) => self.drawer.finish(TakeAnswer::Empty),
            (Take::T4, w) => match ring_of(w, shape) {
                Some(n) => self.drawer.stand(Take::T5(n)),
                None => self.drawer.finish(TakeAnswer::Damaged),
            },
            (Take::T5(n), _) => {
                self.drawer.store(&mut self.memory, shape, Spot::Next, 0);
                self.drawer.stand(Take::T6(n))
            }
            (Take::T6(n), _) => {
                bar(&mut self.memory, Side::Drawer);
                self.drawer.stand(Take::T7(n))
            }
            (Take::T7(n), _) => {
                self.drawer
                    .store(&mut self.memory, shape, Spot::Free, word_of(own));
                self.drawer.places.ring = n;
                self.drawer.stand(Take::T8)
            }
            (Take::T8, 0) => self.drawer.finish(TakeAnswer::Empty),
            (Take::T8, w) => self.drawer.found(w),
            (Take::T9(item), _) => {
                self.drawer.store(&mut self.memory, shape, Spot::Own, 0);
                self.drawer.finish(TakeAnswer::Taken(item))
            }
            (Take::Idle, _) => unreachable!(),
        }
    }
}
