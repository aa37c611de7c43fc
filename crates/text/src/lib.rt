// Texts written into a lent buffer: there is no heap for a String. Buffer and place are passed beside one another, here and in the crates
// above: a struct that held the buffer would have to say in each contract that it still holds the same.
#![tactic(auto)]

ghost use Rattle.std.specs.Prelude.{◌≡◌, [], ◌∷◌, ◌++◌};
ghost use Rattle.meaning.specs.Text.{decimal};
ghost use Rattle.text.specs.Buffer.{buffer, Wrote};
ghost use Rattle.text.specs.Text.{refusal_text};
ghost use Rattle.text.specs.Whole.{Whole, written_to};

// One byte, and the next place. Where the buffer is full the byte is dropped, and the place beyond its end says so.
pub fn put_byte(out: &mut [u8], at: usize, b: u8) -> usize
    ensures { Wrote (buffer out.old at) (b ∷ []) (buffer out.new result) }
{
    if at < out.len() {
        out[at] = b;
        return at + 1;
    }
    if at == out.len() {
        return at + 1;
    }
    at
}

pub fn put_text(out: &mut [u8], at: usize, text: &[u8]) -> usize
    ensures { Wrote (buffer out.old at) text.now (buffer out.new result) }
{
    let mut place = at;
    for b in text {
        place = put_byte(out, place, *b);
    }
    place
}

// A number in base ten, as many digits as it has.
pub fn put_number(out: &mut [u8], at: usize, n: u32) -> usize
    ensures { Wrote (buffer out.old at) (decimal n) (buffer out.new result) }
{
    if n < 10 {
        return put_byte(out, at, b'0' + (n as u8));
    }
    let place = put_number(out, at, n / 10);
    put_byte(out, place, b'0' + ((n % 10) as u8))
}

// A label and a number.
pub fn put_labeled(out: &mut [u8], at: usize, label: &[u8], n: u32) -> usize
    ensures { Wrote (buffer out.old at) (label.now ++ decimal n) (buffer out.new result) }
{
    let place = put_text(out, at, label);
    put_number(out, place, n)
}

// The buffer was too small, and holds the text's front.
#[derive(Clone, Copy, Debug, PartialEq, Eq)]
pub struct BufferFull;

// How many bytes a text has, by the place behind it. It was written from the buffer's beginning on.
pub fn finish(room: usize, place: usize) -> Result<usize, BufferFull>
    ensures { result ≡ written_to room place }
{
    if place <= room {
        Ok(place)
    } else {
        Err(BufferFull)
    }
}

// The line of a refusal, from the buffer's beginning on.
// `as` widens here and in the crates above, which is proved; `u32::from` would add a step and a rewrite to each proof.
pub fn refusal(number: u16, word: u16, out: &mut [u8]) -> Result<usize, BufferFull>
    ensures { Whole (refusal_text number word) out.old out.new result }
{
    let mut place = put_labeled(out, 0, b"refused ", number as u32);
    place = put_labeled(out, place, b" ", word as u32);
    place = put_byte(out, place, b'\n');
    finish(out.len(), place)
}
