//! What a move makes of a run.
ghost use Rattle.std.specs.Prelude.{◌≡◌, ◌<◌, length, nat_le};
ghost use Rattle.lane.specs.Moments.{moment};
ghost use Rattle.run.specs.Running.{ComesTo};
ghost use Rattle.run.specs.declared.orders.Order.TheVariants.{Feed, Draw, Drain, Land};

use crate::faults::Stop;
use crate::notes::{note_put, note_take};
use crate::offers::Offer;
use crate::orders::Order;
use crate::records::Record;
use crate::tallies::Counts;
use memory::Memory;
use queue::{Move, Play, Told};
use words::Kind;

/// A lane after a move, with the counts, or what stopped the run at the move.
pub(crate) struct Stepped<K: Kind, M: Memory> {
    pub(crate) play: Play<K, M>,
    pub(crate) counts: Result<Counts, Stop>,
}

// The play, the counts and the log go into each step and come out of it: a play is used up by its move, and a struct that
// holds the borrowed log would have to say of every step that it is still the same log.

// Whether a log with this many records has no place for another.
fn is_full(log: &[Record], calls: usize) -> bool
    ensures { result ≡ nat_le (length log.now) calls }
{
    calls >= log.len()
}

// A feeder step: it offers the first item not yet accepted, and with none left does nothing.
fn put<K: Kind, M: Memory>(
    play: Play<K, M>,
    index: usize,
    offer: &Offer<'_, K>,
    counts: Counts,
    log: &mut [Record],
) -> Stepped<K, M>
    ensures { ComesTo M.Memory K.Kind index offer.now.words.now Feed counts (moment play.lane) log.old result.counts (moment result.play.lane) log.new }
{
    let Some(item) = offer.item(counts.accepted) else {
        return Stepped {
            play,
            counts: Ok(counts),
        };
    };
    if is_full(log, counts.calls) {
        return Stepped {
            play,
            counts: Err(Stop::LogFull { index }),
        };
    }
    let Told { play, said } = play.make(Move::Feed(item));
    let counts = note_put(index, item, said, counts, log);
    Stepped { play, counts }
}

// A drawer step.
fn take<K: Kind, M: Memory>(
    play: Play<K, M>,
    index: usize,
    offer: &Offer<'_, K>,
    counts: Counts,
    log: &mut [Record],
) -> Stepped<K, M>
    ensures { ComesTo M.Memory K.Kind index offer.now.words.now Draw counts (moment play.lane) log.old result.counts (moment result.play.lane) log.new }
{
    if is_full(log, counts.calls) {
        return Stepped {
            play,
            counts: Err(Stop::LogFull { index }),
        };
    }
    let Told { play, said } = play.make(Move::Draw);
    let counts = note_take(index, said, counts, log);
    Stepped { play, counts }
}

// What a byte asks for is done.
pub(crate) fn obey<K: Kind, M: Memory>(
    play: Play<K, M>,
    index: usize,
    order: Order,
    offer: &Offer<'_, K>,
    counts: Counts,
    log: &mut [Record],
) -> Stepped<K, M>
    ensures { ComesTo M.Memory K.Kind index offer.now.words.now order counts (moment play.lane) log.old result.counts (moment result.play.lane) log.new }
{
    match order {
        Order::Feed => put(play, index, offer, counts, log),
        Order::Draw => take(play, index, offer, counts, log),
        Order::Drain => {
            let Told { play, said: _ } = play.make(Move::Drain);
            Stepped {
                play,
                counts: Ok(counts),
            }
        }
        Order::Land(side, pick) => {
            let Told { play, said: _ } = play.make(Move::Land(side, pick));
            Stepped {
                play,
                counts: Ok(counts),
            }
        }
    }
}
