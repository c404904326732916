//! How the log tells of the calls that end.
ghost use Rattle.std.specs.Prelude.{◌≡◌, ◌+◌, ◌^◌, ◌<◌, length, Some};
ghost use Rattle.run.specs.Logs.{put_told, take_told};
ghost use Rattle.run.specs.Running.{said_put, said_take, CallNoted, PutNoted, TakeNoted};
ghost use Rattle.run.specs.Runs.{accepting};

use crate::faults::Stop;
use crate::records::{Answer, Record};
use crate::tallies::Counts;
use lane::{Ended, PutAnswer, TakeAnswer};
use queue::Said;
use words::Kind;

// How the log tells of the answer to a put of this item.
fn tell_put<K: Kind>(item: K, answer: PutAnswer<K>) -> Option<Answer>
    ensures { result ≡ put_told K.Kind item answer }
{
    match answer {
        PutAnswer::Accepted => Some(Answer::Accepted(item.to_word())),
        PutAnswer::NoRing(back) => Some(Answer::NoRing(back.to_word())),
        PutAnswer::Damaged => None,
    }
}

// How the log tells of the answer to a take.
fn tell_take<K: Kind>(answer: TakeAnswer<K>) -> Option<Answer>
    ensures { result ≡ take_told K.Kind answer }
{
    match answer {
        TakeAnswer::Taken(item) => Some(Answer::Taken(item.to_word())),
        TakeAnswer::Empty => Some(Answer::Empty),
        TakeAnswer::Damaged => None,
    }
}

// Notes a call that ended behind the others, or stops where there is nothing to tell of it.
fn note(
    index: usize,
    answer: Option<Answer>,
    steps: u8,
    calls: usize,
    log: &mut [Record],
) -> Result<usize, Stop>
    requires { calls < length log.old }
    ensures { CallNoted index answer steps calls log.old log.new result }
{
    let Some(answer) = answer else {
        return Err(Stop::Damaged { index });
    };
    log[calls] = Record {
        index,
        answer,
        steps,
    };
    Ok(calls + 1)
}

// How many items the answer accepts.
fn count_accepted<K: Kind>(ended: Ended<PutAnswer<K>>) -> usize
    ensures { result ≡ accepting (Some ended) }
{
    usize::from(matches!(ended.answer, PutAnswer::Accepted))
}

// Notes a step of a put of this item, where it ended the put.
pub(crate) fn note_put<K: Kind>(
    index: usize,
    item: K,
    said: Said<K>,
    counts: Counts,
    log: &mut [Record],
) -> Result<Counts, Stop>
    requires { (counts.calls < length log.old) × (counts.accepted + 1 < 2 ^ 64) }
    ensures { PutNoted K.Kind index item (said_put said) counts log.old log.new result }
{
    let Said::Put(ended) = said else {
        return Ok(counts);
    };
    let told = tell_put(item, ended.answer);
    let calls = note(index, told, ended.steps, counts.calls, log)?;
    Ok(Counts {
        accepted: counts.accepted + count_accepted(ended),
        calls,
    })
}

// Notes a step of a take, where it ended the take.
pub(crate) fn note_take<K: Kind>(
    index: usize,
    said: Said<K>,
    counts: Counts,
    log: &mut [Record],
) -> Result<Counts, Stop>
    requires { counts.calls < length log.old }
    ensures { TakeNoted K.Kind index (said_take said) counts log.old log.new result }
{
    let Said::Take(ended) = said else {
        return Ok(counts);
    };
    let told = tell_take(ended.answer);
    let calls = note(index, told, ended.steps, counts.calls, log)?;
    Ok(Counts { calls, ..counts })
}
