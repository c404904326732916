//! A probe's reading.
ghost use Rattle.std.specs.Prelude.{◌≡◌, pos, MatchResult};
ghost use Rattle.words.specs.Ranges.{InRange, FirstOut, Measured, reading_numbers, temperature_numbers};
ghost use Rattle.words.specs.declared.parts.Part.TheVariants.{Deck, Probe, Tick};

use crate::faults::ItemFault;
use crate::parts::Part;

/// What one probe of one deck measured at one tick.
#[derive(Clone, Copy, Debug, PartialEq, Eq)]
pub struct Reading {
    pub deck: u8,
    pub probe: u8,
    pub tick: u16,
    /// tenths of °C; none from an open probe
    pub tenths: Option<i16>,
    ghost in_range: { InRange Deck (pos deck) × InRange Probe (pos probe) × InRange Tick (pos tick) },
    ghost measured: { Measured tenths },
}

fn narrow_temperature(tenths: Option<i64>) -> Result<Option<i16>, ItemFault>
    ensures { MatchResult result (λ t. (t ≡ tenths) × Measured tenths) (λ f. FirstOut (temperature_numbers tenths) f) }
{
    tenths.map(|t| Part::Temperature.narrow(t)).transpose()
}

impl Reading {
    /// The reading with these numbers; the first that is out of range is refused.
    pub fn new(deck: i64, probe: i64, tick: i64, tenths: Option<i64>) -> Result<Reading, ItemFault>
        ensures { MatchResult result
            (λ x. (pos x.deck ≡ deck) × (pos x.probe ≡ probe) × (pos x.tick ≡ tick) × (x.tenths ≡ tenths))
            (λ f. FirstOut (reading_numbers deck probe tick tenths) f) }
    {
        Ok(Reading {
            deck: Part::Deck.narrow(deck)?,
            probe: Part::Probe.narrow(probe)?,
            tick: Part::Tick.narrow(tick)?,
            tenths: narrow_temperature(tenths)?,
        })
    }
}
