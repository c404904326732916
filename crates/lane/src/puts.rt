//! The rows of a put. Those of a take are other rows, not the same ones for another type.
ghost use Rattle.std.specs.Prelude.{◌≡◌, ◌≢◌, ◌≤◌, length};
ghost use Rattle.lane.specs.PutTable.{PutSees};
ghost use Rattle.lane.specs.Moments.{moment, PutStep};
ghost use Rattle.lane.specs.declared.sides.Put.TheVariants.{Idle};
ghost use Rattle.lane.specs.Layout.{Shaped, Within, words_of};

use crate::answers::{Ended, PutAnswer};
use crate::lanes::Lane;
use crate::memory_calls::{bar, look};
use crate::rings::{ring_of, word_of};
use crate::shapes::Shape;
use crate::sides::{Feeder, Put, Spot};
use memory::{Memory, Side};
use words::Kind;

// The look of a put, where its row has one.
fn put_look<K: Kind, M: Memory>(memory: &mut M, feeder: &Feeder<K>, shape: Shape) -> u64
    requires within { Within shape.rings shape.cells feeder.now.places }
    requires room { words_of shape.rings shape.cells ≤ length (M.Memory.meaning memory.old).landed }
    ensures sees { PutSees M.Memory K.Kind shape.rings shape.cells feeder.now.stage feeder.now.places memory.old result memory.new }
    ensures size { length (M.Memory.meaning memory.new).landed ≡ length (M.Memory.meaning memory.old).landed }
{
    let places = &feeder.places;
    match feeder.stage {
        Put::P1(_) => look(memory, Side::Feeder, places.cell(shape, Spot::Own)),
        Put::P2(_) => look(memory, Side::Feeder, places.cell(shape, Spot::Free)),
        // a row that stores or bars reads nothing of what it sees
        _ => 0,
    }
}

impl<K: Kind, M: Memory> Lane<K, M> {
    pub(crate) fn put_row(&mut self) -> Option<Ended<PutAnswer<K>>>
        requires { self.old.feeder.stage ≢ Idle }
        ensures { PutStep M.Memory K.Kind (moment self.old) (moment self.new) result }
    {
        let shape = self.shape;
        let seen = put_look(&mut self.memory, &self.feeder, shape);
        match (self.feeder.stage, seen) {
            (Put::P1(item), 0) => self.feeder.stand(Put::P7(item)),
            (Put::P1(item), _) => self.feeder.stand(Put::P2(item)),
            (Put::P2(item), 0) => self.feeder.finish(PutAnswer::NoRing(item)),
            (Put::P2(item), w) => match ring_of(w, shape) {
                Some(n) => self.feeder.stand(Put::P3(item, n)),
                None => self.feeder.finish(PutAnswer::Damaged),
            },
            (Put::P3(item, n), _) => {
                self.feeder.store(&mut self.memory, shape, Spot::Free, 0);
                self.feeder.stand(Put::P4(item, n))
            }
            (Put::P4(item, n), _) => {
                bar(&mut self.memory, Side::Feeder);
                self.feeder.stand(Put::P5(item, n))
            }
            (Put::P5(item, n), _) => {
                self.feeder
                    .store(&mut self.memory, shape, Spot::Next, word_of(n));
                self.feeder.stand(Put::P6(item, n))
            }
            (Put::P6(item, n), _) => {
                self.feeder
                    .store(&mut self.memory, shape, Spot::Mark, word_of(n));
                self.feeder.places.ring = n;
                self.feeder.stand(Put::P7(item))
            }
            (Put::P7(item), _) => {
                bar(&mut self.memory, Side::Feeder);
                self.feeder.stand(Put::P8(item))
            }
            (Put::P8(item), _) => {
                self.feeder
                    .store(&mut self.memory, shape, Spot::Own, item.to_word());
                self.feeder.finish(PutAnswer::Accepted)
            }
            (Put::Idle, _) => unreachable!(),
        }
    }
}
