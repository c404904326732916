//! One line of the listing.
ghost use Rattle.std.specs.Prelude.{◌≡◌, ◌+◌, ◌<◌, ◌≤◌, ◌++◌, length, codes, decimal};
ghost use Rattle.arrayvec.specs.ArrayVec.{array_vec_len};
ghost use Rattle.listing.specs.Listing.{side_letter, answer_text, word_text, line, end_line};

use crate::texts::{Text, decimal_length};
use run::{Answer, Record};

/// A refusal as a baker sees it: its number, and the byte of the book that it names.
#[derive(Clone, Copy, Debug, PartialEq, Eq)]
pub struct Refusal {
    pub number: u8,
    pub byte: usize,
}

/// How a run stopped: the moves made before, and what it was refused for, if anything.
#[derive(Clone, Copy, Debug, PartialEq, Eq)]
pub struct End {
    pub moves: usize,
    pub refusal: Option<Refusal>,
}

// What stands between the move and the steps.
fn side_and_answer(answer: Answer) -> &'static [u8]
    ensures text { result.now ≡ codes " " ++ (side_letter answer ++ (codes " " ++ (answer_text answer ++ codes " "))) }
    ensures short { length result.now ≤ 11 }
{
    match answer {
        Answer::Accepted(_) => b" F in ",
        Answer::NoRing(_) => b" F no-ring ",
        Answer::Taken(_) => b" D out ",
        Answer::Empty => b" D empty ",
    }
}

fn word_length(answer: Answer) -> usize
    ensures { (result ≡ length (word_text answer)) × (result ≤ 16) }
{
    match answer {
        Answer::Accepted(_) | Answer::NoRing(_) | Answer::Taken(_) => 16,
        Answer::Empty => 1,
    }
}

// counted, so that a line is put together only once
pub(crate) fn line_length(call: &Record) -> usize
    ensures counted { result ≡ length (line call.now) }
    ensures short { call.now.index < 65536 → result ≤ 37 }
{
    decimal_length(call.index as u64)
        + side_and_answer(call.answer).len()
        + decimal_length(call.steps as u64)
        + 1
        + word_length(call.answer)
        + 1
}

fn push_item(text: &mut Text, answer: Answer)
    requires { array_vec_len text.old.bytes + 16 ≤ 80 }
    ensures text { text.new.bytes.items ≡ text.old.bytes.items ++ word_text answer }
    ensures len { array_vec_len text.new.bytes ≤ array_vec_len text.old.bytes + 16 }
{
    match answer {
        Answer::Accepted(word) | Answer::NoRing(word) | Answer::Taken(word) => text.push_word(word),
        Answer::Empty => text.push(b"-"),
    }
}

pub(crate) fn line_of(call: &Record) -> Text
    ensures text { result.bytes.items ≡ line call.now }
    ensures short { call.now.index < 65536 → length (line call.now) ≤ 37 }
{
    let mut text = Text::new();
    text.push_decimal(call.index as u64);
    text.push(side_and_answer(call.answer));
    text.push_decimal(call.steps as u64);
    text.push(b" ");
    push_item(&mut text, call.answer);
    text.push(b"\n");
    text
}

pub(crate) fn end_line_of(end: &End) -> Text
    ensures text { result.bytes.items ≡ end_line end.now }
    ensures short { length (end_line end.now) ≤ 50 }
{
    let told = end.refusal.unwrap_or(Refusal { number: 0, byte: 0 });
    let mut text = Text::new();
    text.push(b"end ");
    text.push_decimal(end.moves as u64);
    text.push(b" ");
    text.push_decimal(told.number as u64);
    text.push(b" ");
    text.push_decimal(told.byte as u64);
    text.push(b"\n");
    text
}
