//! The settings of a run, read from their five bytes.
ghost use Rattle.std.specs.Prelude.{◌≡◌, ◌+◌, ◌≤◌, [], ◌∷◌, length, drop, IfOk, Ok, Err, MatchResult};
ghost use Rattle.book.specs.Checks.{Judged, check as check_of};
ghost use Rattle.book.specs.Settings.{settings_checks, setting_refusal, Settled, entries_of, from_to};

use crate::codes::{ItemKind, MemoryKind};
use crate::depths::Depth;

#[derive(Clone, Copy, Debug, PartialEq, Eq)]
pub struct Settings {
    pub kind: ItemKind,
    pub rings: u8,
    pub cells: u8,
    pub memory: MemoryKind,
    /// Of the buffer above the memory, if there is one.
    pub depth: Option<Depth>,
}

/// A setting that is refused, and its byte in the book.
#[derive(Clone, Copy, Debug, PartialEq, Eq)]
pub enum BadSetting {
    /// There is no such kind of item, or of memory.
    Unknown { byte: usize },
    /// A number of rings, of cells or of entries is out of its range.
    OutOfRange { byte: usize },
}

// What this byte of the book stands for.
fn known<T: TryFrom<u8>>(code: u8, byte: usize) -> Result<T, BadSetting>
where
    T::Error: Drop,
    ensures { MatchResult result
        (λ x. T.try_from_gives code (Ok x))
        (λ e. (e ≡ BadSetting.Unknown byte) × ((why : T.Error) × T.try_from_gives code (Err why))) }
{
    T::try_from(code).map_err(|_| BadSetting::Unknown { byte })
}

fn in_range(n: u8, low: u8, high: u8, byte: usize) -> Result<u8, BadSetting>
    ensures judged { Judged setting_refusal (check_of (from_to low high n) 3 byte ∷ []) result }
    ensures same { IfOk result (λ k. k ≡ n) }
{
    if (low..=high).contains(&n) {
        Ok(n)
    } else {
        Err(BadSetting::OutOfRange { byte })
    }
}

fn depth(entries: u8, byte: usize) -> Result<Option<Depth>, BadSetting>
    ensures judged { Judged setting_refusal (check_of (from_to 0 16 entries) 3 byte ∷ []) result }
    ensures depth { IfOk result (λ d. entries_of d ≡ entries) }
{
    match entries {
        0 => Ok(None),
        1..=16 => Ok(Some(Depth { entries })),
        _ => Err(BadSetting::OutOfRange { byte }),
    }
}

// The settings at the start of these bytes, which stand at `at` in the book.
fn settle(bytes: &[u8], at: usize) -> Result<Settings, BadSetting>
    requires { (5 ≤ length bytes.now) × (at ≤ 65536) }
    ensures judged { Judged setting_refusal (settings_checks bytes.now at) result }
    ensures settled { IfOk result (λ s. Settled bytes.now s) }
{
    let [kind, rings, cells, memory, entries, ..] = bytes else {
        unreachable!()
    };
    Ok(Settings {
        kind: known(*kind, at)?,
        rings: in_range(*rings, 2, 8, at + 1)?,
        cells: in_range(*cells, 1, 64, at + 2)?,
        memory: known(*memory, at + 3)?,
        depth: depth(*entries, at + 4)?,
    })
}

/// The settings that stand at this byte of the book.
pub(crate) fn read_settings(book: &[u8], at: usize) -> Result<Settings, BadSetting>
    requires { (at + 5 ≤ length book.now) × (at ≤ 65536) }
    ensures judged { Judged setting_refusal (settings_checks (drop at book.now) at) result }
    ensures settled { IfOk result (λ s. Settled (drop at book.now) s) }
{
    settle(&book[at..], at)
}
