//! A recipe edit.
ghost use Rattle.std.specs.Prelude.{◌≡◌, pos, MatchResult};
ghost use Rattle.words.specs.Ranges.{InRange, FirstOut, edit_numbers};
ghost use Rattle.words.specs.declared.parts.Part.TheVariants.{Deck, Stage, Value};

use crate::faults::ItemFault;
use crate::parts::Part;
use crate::settings::Setting;

/// A setting of one stage of one deck gets a new value.
#[derive(Clone, Copy, Debug, PartialEq, Eq)]
pub struct Edit {
    pub setting: Setting,
    pub deck: u8,
    pub stage: u8,
    pub value: u32,
    ghost in_range: { InRange Deck (pos deck) × InRange Stage (pos stage) × InRange (Value setting) (pos value) },
}

impl Edit {
    /// The edit with these numbers; the first that is out of range is refused.
    pub fn new(setting: Setting, deck: i64, stage: i64, value: i64) -> Result<Edit, ItemFault>
        ensures { MatchResult result
            (λ e. (e.setting ≡ setting) × (pos e.deck ≡ deck) × (pos e.stage ≡ stage) × (pos e.value ≡ value))
            (λ f. FirstOut (edit_numbers setting deck stage value) f) }
    {
        Ok(Edit {
            setting,
            deck: Part::Deck.narrow(deck)?,
            stage: Part::Stage.narrow(stage)?,
            value: Part::Value(setting).narrow(value)?,
        })
    }
}
