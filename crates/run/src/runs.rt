//! A run: a lane is opened, and the moves are made on it.
ghost use Rattle.std.specs.Prelude.{◌≡◌, MatchResult};
ghost use Rattle.lane.specs.Moments.{moment};
ghost use Rattle.run.specs.Promised.{MadeMoves, RanAsPromised, Unbegun};
ghost use Rattle.run.specs.Running.{Ready};

use crate::checks::check_run;
use crate::faults::Stop;
use crate::offers::Offer;
use crate::orders::Order;
use crate::records::Record;
use crate::running::{Stepped, obey};
use crate::tallies::{Counts, NotRun, Ran, Tally};
use memory::Memory;
use queue::Play;
use words::Kind;

// The lane of a run; no other end is brought to it.
const LANE: u32 = 0;

// What a run comes to that has made its moves up to this one.
fn end_at<K: Kind, M: Memory>(
    play: Play<K, M>,
    counts: Counts,
    moves: usize,
    stop: Option<Stop>,
) -> Ran<M>
    ensures memory { result.memory ≡ play.lane.memory }
    ensures tally { result.tally ≡ record { calls = counts.calls; moves = moves; stop = stop } }
{
    Ran {
        memory: play.into_memory(),
        tally: Tally {
            calls: counts.calls,
            moves,
            stop,
        },
    }
}

fn make_moves<K: Kind, M: Memory>(
    mut play: Play<K, M>,
    offer: &Offer<'_, K>,
    moves: &[u8],
    log: &mut [Record],
) -> Ran<M>
    requires { Ready (moment play.lane) }
    ensures { MadeMoves M.Memory K.Kind (moment play.lane) offer.now.words.now moves.now log.old log.new result.tally result.memory }
{
    let mut counts = Counts {
        accepted: 0,
        calls: 0,
    };
    for (index, byte) in moves.iter().enumerate() {
        let Ok(order) = Order::try_from(*byte) else {
            return end_at(play, counts, index, Some(Stop::UnknownMove { index }));
        };
        let Stepped {
            play: next,
            counts: came,
        } = obey(play, index, order, offer, counts, log);
        play = next;
        match came {
            Ok(more) => counts = more,
            Err(stop) => return end_at(play, counts, index, Some(stop)),
        }
    }
    end_at(play, counts, moves.len(), None)
}

/// Opens a lane in the memory, makes the moves on it with these words to offer, and logs each call that ends.
pub fn run<K: Kind, M: Memory>(
    mut memory: M,
    rings: u8,
    cells: u8,
    words: &[u64],
    moves: &[u8],
    log: &mut [Record],
) -> Result<Ran<M>, NotRun<M>>
    ensures { MatchResult result
        (λ r. RanAsPromised M.Memory K.Kind rings cells words.now moves.now memory log.old log.new r.tally r.memory)
        (λ e. Unbegun M.Memory K.Kind rings cells words.now e.why memory e.memory × (log.new ≡ log.old)) }
{
    let offer = match check_run::<K, M>(&mut memory, rings, cells, words) {
        Ok(offer) => offer,
        Err(why) => return Err(NotRun { memory, why }),
    };
    let play = Play::<K, M>::open(memory, rings, cells, LANE)?;
    Ok(make_moves(play, &offer, moves, log))
}
