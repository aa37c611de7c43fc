// A list of vectors, read byte by byte. A vector is a line with a word and a store's bytes in hex, the lines of its answer,
// and a line with a dot.
#![tactic(auto)]

ghost use Rattle.std.specs.Prelude.{◌≡◌, ◌≤◌, ◌<◌, length};
ghost use Rattle.vectors.specs.Parts.{behind, hex_digit, hex_byte};
ghost use Rattle.vectors.specs.Reading.{Decodes, at_start, ends_at, KeptSoFar, counted_of};
ghost use Rattle.vectors.specs.Tally.{told_of};

// The bytes of a vector that are kept; a longer one never agrees. So many digits give half as many bytes.
pub const TEXT: usize = 65536;

pub const STORE: usize = 32768;

// How many answers agreed with a list, and how many differed.
#[derive(Clone, Copy, Debug, PartialEq, Eq)]
pub struct Tally {
    pub agree: u32,
    pub differ: u32,
}

// How many bytes of a vector are kept so far, the tally of the vectors before, and whether the next byte begins a line, whatever is kept.
#[derive(Clone, Copy, Debug, PartialEq, Eq)]
pub struct VectorReader {
    pub size: usize,
    pub fresh: bool,
    pub tally: Tally,
}

// How many bytes there are up to the first of this value, and with it.
pub fn behind(text: &[u8], b: u8) -> usize
    ensures { result ≡ behind b text.now }
{
    match text.iter().position(|x| *x == b) {
        Some(i) => i + 1,
        None => text.len(),
    }
}

// A hex digit, with small letters.
fn digit(b: u8) -> u8
    ensures { (result ≡ hex_digit b) × (result < 16) }
{
    if b < 58 { b % 16 } else { (b - 39) % 16 }
}

// The byte of two digits.
fn byte(high: u8, low: u8) -> u8
    ensures { result ≡ hex_byte high low }
{
    16 * digit(high) + digit(low)
}

// The bytes of a line of digits, and how many they are.
pub fn decode(digits: &[u8], bytes: &mut [u8; STORE]) -> usize
    requires { length digits.now ≤ 65536 }
    ensures { Decodes digits.now bytes.new result }
{
    let size = digits.len() / 2;
    for n in 0..size {
        bytes[n] = byte(digits[2 * n], digits[2 * n + 1]);
    }
    size
}

pub fn start() -> VectorReader
    ensures { result ≡ at_start }
{
    VectorReader {
        size: 0,
        fresh: false,
        tally: Tally {
            agree: 0,
            differ: 0,
        },
    }
}

// Whether a byte is the dot behind a vector.
pub fn ends(r: VectorReader, b: u8) -> bool
    ensures { result ≡ ends_at r.fresh b }
{
    r.fresh && b == b'.'
}

// One more byte of a vector.
pub fn keep(r: VectorReader, b: u8, text: &mut [u8; TEXT]) -> VectorReader
    ensures { KeptSoFar r b text.old text.new result }
{
    let fresh = b == b'\n';
    if r.size >= TEXT {
        return VectorReader { fresh, ..r };
    }
    text[r.size] = b;
    VectorReader {
        size: r.size + 1,
        fresh,
        ..r
    }
}

// One more answer.
pub fn told(t: Tally, agreed: bool) -> Tally
    ensures { result ≡ told_of t agreed }
{
    if agreed {
        Tally {
            agree: t.agree.saturating_add(1),
            ..t
        }
    } else {
        Tally {
            differ: t.differ.saturating_add(1),
            ..t
        }
    }
}

// Behind a vector that agreed or differed.
pub fn counted(r: VectorReader, agreed: bool) -> VectorReader
    ensures { result ≡ counted_of r agreed }
{
    VectorReader {
        tally: told(r.tally, agreed),
        ..start()
    }
}
