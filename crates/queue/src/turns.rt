//! A move of each side.
ghost use Rattle.std.specs.Prelude.{◌≡◌};
ghost use Rattle.lane.specs.Ends.{lane_of, answer_of, end_of};
ghost use Rattle.lane.specs.Moments.{moment};
ghost use Rattle.lane.specs.Stages.{putting, taking};
ghost use Rattle.queue.specs.Busy.{is_busy};
ghost use Rattle.queue.specs.InPlay.{Begun, TakeBegins, SaidBy};
ghost use Rattle.queue.specs.Turns.{Turn};
ghost use Rattle.queue.specs.declared.moves.Move.TheVariants.{Feed, Draw};

use crate::moves::Said;
use crate::states::{Play, Told};
use lane::{DrawerBusy, DrawerEnd, End, Ended, FeederBusy, FeederEnd, Lane, Stepped};
use memory::Memory;
use words::Kind;

// The moves of the two sides differ in their ends, calls and answers, each of a type of its own: a trait over both would
// need more lines for its members than the second function has.

// The busy end: of the put under way, or of one begun with this item, since the lane's own end fits.
fn feeding<K: Kind, M: Memory>(lane: &mut Lane<K, M>, end: FeederEnd, item: K) -> FeederBusy
    requires { (lane_of end ≡ lane.old.number) × (is_busy end ≡ putting lane.old.feeder.stage) }
    ensures { (result.lane ≡ lane.old.number) × Begun item (moment lane.old) (moment lane.new) }
{
    match end {
        End::Busy(busy) => busy,
        End::Idle(idle) => match lane.begin_put(idle, item) {
            Ok(busy) => busy,
            Err(_) => unreachable!(),
        },
    }
}

// The busy end: of the take under way, or of one begun, since the lane's own end fits.
fn drawing<K: Kind, M: Memory>(lane: &mut Lane<K, M>, end: DrawerEnd) -> DrawerBusy
    requires { (lane_of end ≡ lane.old.number) × (is_busy end ≡ taking lane.old.drawer.stage) }
    ensures { (result.lane ≡ lane.old.number) × TakeBegins (moment lane.old) (moment lane.new) }
{
    match end {
        End::Busy(busy) => busy,
        End::Idle(idle) => match lane.begin_take(idle) {
            Ok(busy) => busy,
            Err(_) => unreachable!(),
        },
    }
}

// A side's end after a step, and what the step says.
struct Turned<S, K> {
    end: End<S>,
    said: Said<K>,
}

fn turn_end<S, A, K, F: FnOnce(Ended<A>) -> Said<K>>(stepped: Stepped<S, A>, say: F) -> Turned<S, K>
    requires { F.IsAlwaysCallable say }
    ensures end { result.end ≡ end_of stepped }
    ensures said { SaidBy (F.post say) (answer_of stepped) result.said }
{
    match stepped {
        Stepped::Going(busy) => Turned {
            end: End::Busy(busy),
            said: Said::Nothing,
        },
        Stepped::Over(idle, ended) => Turned {
            end: End::Idle(idle),
            said: say(ended),
        },
    }
}

pub(crate) fn feed<K: Kind, M: Memory>(play: Play<K, M>, item: K) -> Told<K, M>
    ensures { Turn M.Memory K.Kind (Feed item) (moment play.lane) result.said (moment result.play.lane) }
{
    let Play {
        mut lane,
        feeder,
        drawer,
    } = play;
    let busy = feeding(&mut lane, feeder, item);
    let Ok(stepped) = lane.put_step(busy) else {
        unreachable!()
    };
    let Turned { end: feeder, said } = turn_end(stepped, Said::Put);
    Told {
        play: Play {
            lane,
            feeder,
            drawer,
        },
        said,
    }
}

pub(crate) fn draw<K: Kind, M: Memory>(play: Play<K, M>) -> Told<K, M>
    ensures { Turn M.Memory K.Kind Draw (moment play.lane) result.said (moment result.play.lane) }
{
    let Play {
        mut lane,
        feeder,
        drawer,
    } = play;
    let busy = drawing(&mut lane, drawer);
    let Ok(stepped) = lane.take_step(busy) else {
        unreachable!()
    };
    let Turned { end: drawer, said } = turn_end(stepped, Said::Take);
    Told {
        play: Play {
            lane,
            feeder,
            drawer,
        },
        said,
    }
}
