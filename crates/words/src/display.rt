//! How items and faults read in text: by hand, since what a derive prints is not promised.
ghost use Rattle.std.specs.Prelude.{◌≡◌, Some};
ghost use Rattle.words.specs.Text.{edit_text, reading_text, ring_text, temperature_text, part_text, fault_text};

use crate::edits::Edit;
use crate::faults::ItemFault;
use crate::parts::Part;
use crate::readings::Reading;
use crate::rings::RingNumber;
use std::error::Error;
use std::fmt;

impl fmt::Display for Part {
    ghost output = { λ p. Some (part_text p) };

    fn fmt<W: fmt::Write>(&self, f: &mut fmt::Formatter<W>) -> fmt::Result {
        match self {
            Part::Deck => f.write_str("deck"),
            Part::Stage => f.write_str("stage"),
            Part::Value(setting) => write!(f, "{setting} in {}", setting.unit()),
            Part::Probe => f.write_str("probe"),
            Part::Tick => f.write_str("tick"),
            Part::Temperature => f.write_str("temperature in tenths of °C"),
            Part::Ring => f.write_str("ring"),
        }
    }
}

impl fmt::Display for ItemFault {
    ghost output = { λ e. Some (fault_text e) };

    fn fmt<W: fmt::Write>(&self, f: &mut fmt::Formatter<W>) -> fmt::Result {
        match self {
            ItemFault::OutOfRange(part) => {
                write!(f, "{part} must be {} to {}", part.least(), part.most())
            }
            ItemFault::NoItem(_) => f.write_str("this is the word of no such item"),
        }
    }
}

impl Error for ItemFault {}

impl fmt::Display for Edit {
    ghost output = { λ e. Some (edit_text e) };

    fn fmt<W: fmt::Write>(&self, f: &mut fmt::Formatter<W>) -> fmt::Result {
        write!(
            f,
            "edit {} {} {} {}",
            self.setting, self.deck, self.stage, self.value
        )
    }
}

// Tenths of a degree, as degrees with one place; none is `open`.
#[derive(Clone, Copy)]
struct Temperature(Option<i16>);

impl fmt::Display for Temperature {
    ghost output = { λ t. Some (temperature_text t.0) };

    fn fmt<W: fmt::Write>(&self, f: &mut fmt::Formatter<W>) -> fmt::Result {
        let Some(tenths) = self.0 else {
            return f.write_str("open");
        };
        let size = tenths.unsigned_abs();
        let sign = if tenths < 0 { "-" } else { "" };
        write!(f, "{sign}{}.{}", size / 10, size % 10)
    }
}

impl fmt::Display for Reading {
    ghost output = { λ r. Some (reading_text r) };

    fn fmt<W: fmt::Write>(&self, f: &mut fmt::Formatter<W>) -> fmt::Result {
        let temperature = Temperature(self.tenths);
        write!(
            f,
            "reading {} {} {} {temperature}",
            self.deck, self.probe, self.tick
        )
    }
}

impl fmt::Display for RingNumber {
    ghost output = { λ n. Some (ring_text n) };

    fn fmt<W: fmt::Write>(&self, f: &mut fmt::Formatter<W>) -> fmt::Result {
        write!(f, "ring {}", self.number)
    }
}
