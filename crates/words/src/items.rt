//! The three kinds of item, each by the layout of its word.
ghost use Rattle.words.specs.Words.{edit_word, reading_word, ring_word, temperature_bits, bits_temperature};
ghost use Rattle.std.specs.Prelude.{◌≡◌};
ghost use Rattle.words.specs.Layouts.{edit_fits, edit_marked, same_edit_word, reading_fits, reading_marked, same_reading_word, ring_fits, ring_marked, same_ring_word};

use crate::edits::Edit;
use crate::faults::ItemFault;
use crate::kinds::Kind;
use crate::readings::Reading;
use crate::rings::RingNumber;
use crate::settings::Setting;

// Byte 7 of a reading's word.
const READING: u8 = 16;

// What stands for the temperature of an open probe.
const OPEN: u16 = 0x8000;

impl Kind for Edit {
    ghost word = { edit_word };

    ghost fits = { edit_fits };

    ghost marked = { edit_marked };

    ghost single = { same_edit_word };

    fn to_word(self) -> u64 {
        let [v3, v2, v1, v0] = self.value.to_be_bytes();
        u64::from_be_bytes([
            self.setting.into(),
            self.deck,
            self.stage,
            0,
            v3,
            v2,
            v1,
            v0,
        ])
    }

    fn read(w: u64) -> Result<Edit, ItemFault> {
        let no_item = ItemFault::NoItem(w);
        let [code, deck, stage, 0, v3, v2, v1, v0] = w.to_be_bytes() else {
            return Err(no_item);
        };
        let Ok(setting) = Setting::try_from(code) else {
            return Err(no_item);
        };
        let value = u32::from_be_bytes([v3, v2, v1, v0]);
        Edit::new(setting, deck.into(), stage.into(), value.into()).map_err(|_| no_item)
    }
}

fn bits_of(tenths: Option<i16>) -> u16
    ensures { result ≡ temperature_bits tenths }
{
    tenths.map_or(OPEN, i16::cast_unsigned)
}

fn tenths_of(bits: u16) -> Option<i64>
    ensures { result ≡ bits_temperature bits }
{
    (bits != OPEN).then(|| bits.cast_signed().into())
}

impl Kind for Reading {
    ghost word = { reading_word };

    ghost fits = { reading_fits };

    ghost marked = { reading_marked };

    ghost single = { same_reading_word };

    fn to_word(self) -> u64 {
        let [t1, t0] = self.tick.to_be_bytes();
        let [d1, d0] = bits_of(self.tenths).to_be_bytes();
        u64::from_be_bytes([READING, self.deck, self.probe, 0, t1, t0, d1, d0])
    }

    fn read(w: u64) -> Result<Reading, ItemFault> {
        let no_item = ItemFault::NoItem(w);
        let [READING, deck, probe, 0, t1, t0, d1, d0] = w.to_be_bytes() else {
            return Err(no_item);
        };
        let tick = u16::from_be_bytes([t1, t0]);
        let tenths = tenths_of(u16::from_be_bytes([d1, d0]));
        Reading::new(deck.into(), probe.into(), tick.into(), tenths).map_err(|_| no_item)
    }
}

impl Kind for RingNumber {
    ghost word = { ring_word };

    ghost fits = { ring_fits };

    ghost marked = { ring_marked };

    ghost single = { same_ring_word };

    fn to_word(self) -> u64 {
        u64::from(self.number) + 1
    }

    fn read(w: u64) -> Result<RingNumber, ItemFault> {
        let no_item = ItemFault::NoItem(w);
        let number = i64::try_from(w).map_err(|_| no_item)?;
        RingNumber::new(number - 1).map_err(|_| no_item)
    }
}
