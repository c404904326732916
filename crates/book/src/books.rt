//! A run book, run and listed.
ghost use Rattle.std.specs.Prelude.{◌≡◌, ◌<◌, ◌≤◌, [], length, IfSome, IfOk, MatchResult, Ok, unwrap_or};
ghost use Rattle.listing.specs.Bounds.{Early};
ghost use Rattle.book.specs.Layout.{stop as stop_of};
ghost use Rattle.book.specs.Faults.{book_refusal, StopsWithinBook};
ghost use Rattle.book.specs.Plans.{Planned};
ghost use Rattle.book.specs.Books.{bytes_of, refused_end, stopped_end, PlanRun, PlanUnrun, Outcome, Listed};

use crate::choices::{Asked, Log};
use crate::faults::{BadRun, BookFault, bad_run, stop_refusal};
use crate::header::{Layout, Part};
use crate::item_words::{Words, read_words};
use crate::plans::{Plan, read_plan};
use listing::{End, Refusal, put_listing};
use run::{Answer, Record, Tally};

/// A place with so many bytes has room for the listing of any book.
pub const LISTING_ROOM: usize = 38000;

fn part_of(book: &[u8], part: Part) -> &[u8]
    requires { stop_of part ≤ length book.now }
    ensures { result.now ≡ bytes_of part book.now }
{
    let start = part.offset as usize;
    &book[start..start + part.size as usize]
}

// Copies the words out of the book, and makes the run.
fn run_plan(plan: &Plan, book: &[u8], log: &mut Log) -> Result<Tally, BadRun>
    requires { Planned book.now plan.now }
    ensures { MatchResult result (λ t. PlanRun book.now plan.now.settings (Ok t) log.new) (λ b. PlanUnrun book.now plan.now b log.new) }
{
    let mut place: Words = [0; 8188];
    let asked = Asked {
        settings: plan.settings,
        words: read_words(part_of(book, plan.layout.words), &mut place),
        moves: part_of(book, plan.layout.moves),
    };
    // no `map_err`, since it could not be shown what its closure needs to know of the fault
    match asked.run(log) {
        Ok(tally) => Ok(tally),
        Err(fault) => Err(bad_run(&plan.layout, fault)),
    }
}

/// The records that the run of a book leaves, and its end.
#[derive(Clone, Copy)]
struct Summary<'a> {
    records: &'a [Record],
    end: End,
}

fn refused(refusal: Refusal) -> Summary<'static>
    ensures none { result.records.now ≡ [] }
    ensures end { result.end ≡ refused_end refusal }
{
    Summary {
        records: &[],
        end: End {
            moves: 0,
            refusal: Some(refusal),
        },
    }
}

fn end_of(layout: &Layout, tally: Tally) -> End
    requires { StopsWithinBook tally.stop }
    ensures { result ≡ stopped_end layout.now tally.moves tally.stop }
{
    End {
        moves: tally.moves,
        refusal: tally.stop.map(|stop| stop_refusal(layout, stop)),
    }
}

fn run_book<'a>(book: &[u8], log: &'a mut Log) -> Result<Summary<'a>, BookFault>
    ensures few { IfOk result (λ s. length s.records.now ≤ 1024) }
    ensures early { IfOk result (λ s. Early s.records.now) }
    ensures outcome { MatchResult result
        (λ s. Outcome book.now s.records.now s.end)
        (λ f. Outcome book.now [] (refused_end (book_refusal f))) }
{
    let plan = read_plan(book)?;
    let tally = run_plan(&plan, book, log)?;
    Ok(Summary {
        records: &log[..tally.calls],
        end: end_of(&plan.layout, tally),
    })
}

/// Runs the book and writes the listing of its run to the start of the place; answers the listing's length.
/// A place too short is left unwritten, and has none; 37,938 bytes always suffice.
pub fn bench_listing(book: &[u8], place: &mut [u8]) -> Option<usize>
    ensures listed { Listed book.now place.old place.new (unwrap_or result 0) }
    ensures within { IfSome result (λ n. (0 < n) × (n ≤ length place.old)) }
{
    let mut log: Log = [Record {
        index: 0,
        answer: Answer::Empty,
        steps: 0,
    }; 1024];
    let Summary { records, end } = match run_book(book, &mut log) {
        Ok(ran) => ran,
        Err(fault) => refused(fault.refusal()),
    };
    put_listing(records, &end, place)
}
