//! A list of moves on a lane, with the promise in its contract.
ghost use Rattle.std.specs.Prelude.{◌≡◌, ◌<◌, ◌≤◌, [], ◌∷◌, length, take as first, MatchResult, slice_set};
ghost use Rattle.lane.specs.Moments.{moment};
ghost use Rattle.lane.specs.Openings.{Unopened};
ghost use Rattle.queue.specs.InPlay.{Noted};
ghost use Rattle.queue.specs.Plays.{PlayedAsPromised};
ghost use Rattle.queue.specs.Turns.{JustOpenedOver, Turn};

use crate::moves::{Move, Said};
use crate::states::{Play, Told};
use crate::turns::{draw, feed};
use lane::{End, Lane, NoLane, Opened};
use memory::Memory;
use words::Kind;

impl<K: Kind, M: Memory> Play<K, M> {
    /// Opens a lane of this many rings and cells in the memory, with a number that the caller chose.
    pub fn open(memory: M, rings: u8, cells: u8, number: u32) -> Result<Play<K, M>, NoLane<M>>
        ensures { MatchResult result
            (λ p. JustOpenedOver M.Memory number rings cells memory (moment p.lane))
            (λ e. Unopened M.Memory rings cells e.why memory e.memory) }
    {
        let Opened {
            lane,
            feeder,
            drawer,
        } = Lane::<K, M>::open(memory, rings, cells, number)?;
        Ok(Play {
            lane,
            feeder: End::Idle(feeder),
            drawer: End::Idle(drawer),
        })
    }

    /// Makes a move: at most one step, which begins a call where none is under way.
    pub fn make(mut self, m: Move<K>) -> Told<K, M>
        ensures { Turn M.Memory K.Kind m (moment self.lane) result.said (moment result.play.lane) }
    {
        match m {
            Move::Feed(item) => feed(self, item),
            Move::Draw => draw(self),
            Move::Drain => {
                self.lane.drain();
                Told {
                    play: self,
                    said: Said::Nothing,
                }
            }
            Move::Land(side, pick) => {
                self.lane.land(side, pick as usize);
                Told {
                    play: self,
                    said: Said::Nothing,
                }
            }
        }
    }

    /// Ends the play and gives the memory back; what still waits in it goes on waiting.
    pub fn into_memory(self) -> M
        ensures { result ≡ self.lane.memory }
    {
        let Play {
            lane,
            feeder: _,
            drawer: _,
        } = self;
        lane.into_memory()
    }
}

// Makes as many moves as there is place for their answers.
fn make_all<K: Kind, M: Memory>(
    mut play: Play<K, M>,
    moves: &[Move<K>],
    place: &mut [Said<K>],
) -> Play<K, M>
    ensures { Noted M.Memory K.Kind (moment play.lane) (first (length place.old) moves.now) place.old place.new (moment result.lane) }
{
    // no `zip` of the two, since nothing is known of what is written through it
    for (i, answer) in place.iter_mut().enumerate() {
        let Some(m) = moves.get(i) else {
            break;
        };
        let Told { play: next, said } = play.make(*m);
        *answer = said;
        play = next;
    }
    play
}

/// Opens a lane in the memory and makes the moves on it, as many as there is place for their answers; gives the memory
/// as the moves leave it.
pub fn play<K: Kind, M: Memory>(
    memory: M,
    rings: u8,
    cells: u8,
    number: u32,
    moves: &[Move<K>],
    place: &mut [Said<K>],
) -> Result<M, NoLane<M>>
    ensures { MatchResult result
        (λ y. PlayedAsPromised M.Memory K.Kind number rings cells moves.now memory place.old place.new y)
        (λ e. Unopened M.Memory rings cells e.why memory e.memory × (place.new ≡ place.old)) }
{
    let start = Play::<K, M>::open(memory, rings, cells, number)?;
    Ok(make_all(start, moves, place).into_memory())
}
