//! The numbers of an item, each with its range.
ghost use Rattle.std.specs.Prelude.{◌≡◌, false, MatchResult, Ok, Err};
ghost use Rattle.std.specs.Range.{range_inclusive_start, range_inclusive_end, range_inclusive_exhausted};
ghost use Rattle.words.specs.Ranges.{least, most, InRange};
ghost use Rattle.words.specs.declared.faults.ItemFault.TheVariants.{OutOfRange};

use crate::faults::ItemFault;
use crate::settings::Setting;
use std::ops::RangeInclusive;

/// A number of an item that must lie in a range.
#[derive(Clone, Copy, Debug, PartialEq, Eq)]
pub enum Part {
    Deck,
    Stage,
    Value(Setting),
    Probe,
    Tick,
    /// tenths of °C
    Temperature,
    Ring,
}

impl Part {
    fn range(self) -> RangeInclusive<i64>
        ensures start { range_inclusive_start result ≡ least self }
        ensures end { range_inclusive_end result ≡ most self }
        ensures whole { range_inclusive_exhausted result ≡ false }
    {
        match self {
            Part::Deck => 1..=12,
            Part::Stage => 1..=8,
            Part::Value(Setting::TopHeat) => 0..=350,
            Part::Value(Setting::BottomHeat) => 0..=350,
            Part::Value(Setting::Steam) => 0..=60_000,
            Part::Value(Setting::Damper) => 0..=100,
            Part::Value(Setting::StageTime) => 0..=86_400,
            Part::Probe => 1..=4,
            Part::Tick => 0..=65_535,
            Part::Temperature => -500..=5_000,
            Part::Ring => 0..=7,
        }
    }

    /// The least number in its range.
    pub fn least(self) -> i64
        ensures { result ≡ least self }
    {
        *self.range().start()
    }

    /// The largest number in its range.
    pub fn most(self) -> i64
        ensures { result ≡ most self }
    {
        *self.range().end()
    }

    /// Refuses a number out of range.
    pub fn check(self, n: i64) -> Result<(), ItemFault>
        ensures { MatchResult result (λ _. InRange self n) (λ e. (e ≡ OutOfRange self) × (InRange self n → ⊥)) }
    {
        if self.range().contains(&n) {
            Ok(())
        } else {
            Err(ItemFault::OutOfRange(self))
        }
    }

    /// The number in a field's type; one out of range is refused.
    pub(crate) fn narrow<T: TryFrom<i64>>(self, n: i64) -> Result<T, ItemFault>
    where
        T::Error: Drop,
        ensures { MatchResult result
            (λ x. InRange self n × T.try_from_gives n (Ok x))
            (λ e. (e ≡ OutOfRange self) × (InRange self n → (f : _) × T.try_from_gives n (Err f))) }
    {
        self.check(n)?;
        T::try_from(n).map_err(|_| ItemFault::OutOfRange(self))
    }
}
