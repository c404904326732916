//! The text of one line, put together piece by piece.
ghost use Rattle.std.specs.Prelude.{◌≡◌, ◌+◌, ◌<◌, ◌≤◌, [], ◌++◌, length, decimal};
ghost use Rattle.arrayvec.specs.ArrayVec.{array_vec_len};
ghost use Rattle.listing.specs.Numerals.{hexadecimal, hexadecimal_digit};

use arrayvec::ArrayVec;
use itoa::Buffer;

/// The bytes of a line, in a place that is large enough for any.
#[derive(Drop)]
pub(crate) struct Text {
    bytes: ArrayVec<u8, 80>,
}

// How many digits the decimal number has.
pub(crate) fn decimal_length(n: u64) -> usize
    ensures counted { result ≡ length (decimal n) }
    ensures few { (0 < result) × (result ≤ 20) }
{
    if n < 10 {
        1
    } else {
        1 + decimal_length(n / 10)
    }
}

// The standard library formats upper-case digits only by `write!`, which is not known to succeed here.
fn hexadecimal_digit(d: u8) -> u8
    requires { d < 16 }
    ensures { result ≡ hexadecimal_digit d }
{
    if d < 10 { b'0' + d } else { b'A' + (d - 10) }
}

fn digits_of(word: u64) -> [u8; 16]
    ensures { result ≡ hexadecimal 16 word }
{
    let mut digits = [b'0'; 16];
    let mut rest = word;
    // by index from the end, since nothing is known of what is written through a `rev` of `iter_mut`; no `array::from_fn`, as
    // each digit is cut from what the one behind it leaves
    for i in 0..16 {
        digits[15 - i] = hexadecimal_digit((rest % 16) as u8);
        rest /= 16;
    }
    digits
}

// each push asks for the room that it takes, which no invariant of the text can promise
impl Text {
    pub(crate) fn new() -> Text
        ensures { result.bytes.items ≡ [] }
    {
        Text {
            bytes: ArrayVec::new(),
        }
    }

    pub(crate) fn as_slice(&self) -> &[u8]
        ensures { result.now ≡ self.now.bytes.items }
    {
        self.bytes.as_slice()
    }

    pub(crate) fn len(&self) -> usize
        ensures { result ≡ array_vec_len self.now.bytes }
    {
        self.bytes.len()
    }

    pub(crate) fn push(&mut self, piece: &[u8])
        requires { array_vec_len self.old.bytes + length piece.now ≤ 80 }
        ensures text { self.new.bytes.items ≡ self.old.bytes.items ++ piece.now }
        ensures len { array_vec_len self.new.bytes ≡ array_vec_len self.old.bytes + length piece.now }
    {
        self.bytes.try_extend_from_slice(piece).unwrap();
    }

    pub(crate) fn push_decimal(&mut self, n: u64)
        requires { array_vec_len self.old.bytes + 20 ≤ 80 }
        ensures text { self.new.bytes.items ≡ self.old.bytes.items ++ decimal n }
        ensures len { array_vec_len self.new.bytes ≤ array_vec_len self.old.bytes + 20 }
    {
        // most numbers of a line have one digit, for which no buffer is filled
        if n < 10 {
            self.push(&[b'0' + n as u8]);
        } else {
            let mut digits = Buffer::new();
            self.push(digits.format(n).as_bytes());
        }
    }

    // The word in 16 digits.
    pub(crate) fn push_word(&mut self, word: u64)
        requires { array_vec_len self.old.bytes + 16 ≤ 80 }
        ensures text { self.new.bytes.items ≡ self.old.bytes.items ++ hexadecimal 16 word }
        ensures len { array_vec_len self.new.bytes ≡ array_vec_len self.old.bytes + 16 }
    {
        self.push(&digits_of(word));
    }
}
