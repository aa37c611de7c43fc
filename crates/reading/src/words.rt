// Words, words within bounds, and lists of them.
ghost use Rattle.std.specs.Prelude.{◌≡◌, ℕ, ◌+◌, ◌<◌};
ghost use Rattle.format.specs.Read as read;
ghost use Rattle.reading.specs.Answers.{Reads, ReadsMany, ReadsCounted, ReadsWord};
ghost use Rattle.reading.specs.Readings.{stands};

use store::WORDS;
use store::layout::word_at;

// Where reading stands: the next word to read, and the end of the record's words. The words are lent beside it, and not in it, since
// the index of the regions is written among them between two readings.
#[derive(Clone, Copy)]
pub struct Cursor {
    pub at: usize,
    pub end: usize,
}

// Why a reading is refused (document 01, refusals 4 and 5).
#[derive(Clone, Copy, PartialEq, Eq)]
pub enum Fault {
    WrongWordCount,
    OutOfRange,
}

// A word and the cursor behind it: no word stands past the end, nor past the array.
pub fn word(w: &[u16; WORDS], c: Cursor) -> Result<(u16, Cursor), Fault>
    ensures { ReadsWord read.word w.now c result }
{
    let Cursor { at, end } = c;
    if end <= at || WORDS <= at {
        return Err(Fault::WrongWordCount);
    }
    Ok((w[at], Cursor { at: at + 1, end }))
}

pub fn within(w: &[u16; WORDS], c: Cursor, low: u16, high: u16) -> Result<(u16, Cursor), Fault>
    ensures { ReadsWord (read.within low high) w.now c result }
{
    let (n, c) = word(w, c)?;
    if n < low || high < n {
        return Err(Fault::OutOfRange);
    }
    Ok((n, c))
}

// n of a kind, one after the other
pub fn many<F: Fn(Cursor) -> Result<Cursor, Fault>>(
    from: Cursor,
    n: u16,
    read: F,
) -> Result<Cursor, Fault>
    requires { F.IsAlwaysCallable read }
    ensures { ReadsMany (F.post read) n from result }
{
    let mut c = from;
    for _ in 0..n {
        c = read(c)?;
    }
    Ok(c)
}

// a count within bounds, and so many
pub fn counted<F: Fn(Cursor) -> Result<Cursor, Fault>>(
    w: &[u16; WORDS],
    c: Cursor,
    low: u16,
    high: u16,
    read: F,
) -> Result<Cursor, Fault>
    requires { F.IsAlwaysCallable read }
    ensures { ReadsCounted (F.post read) low high w.now c result }
{
    let (n, c) = within(w, c, low, high)?;
    many(c, n, read)
}

// The cursor behind a word.
pub fn past_word(w: &[u16; WORDS], c: Cursor) -> Result<Cursor, Fault>
    ensures { Reads read.word w.now c result }
{
    let (_, e) = word(w, c)?;
    Ok(e)
}

// The cursor behind a type.
fn past_type(w: &[u16; WORDS], c: Cursor) -> Result<Cursor, Fault>
    ensures { Reads read.type w.now c result }
{
    let (_, e) = within(w, c, 1, 255)?;
    Ok(e)
}

// n words
pub fn words(w: &[u16; WORDS], c: Cursor, n: u16) -> Result<Cursor, Fault>
    ensures { Reads (read.many n read.word) w.now c result }
{
    many(c, n, |c| past_word(w, c))
}

pub fn counted_words(w: &[u16; WORDS], c: Cursor, low: u16, high: u16) -> Result<Cursor, Fault>
    ensures { Reads (read.counted low high read.word) w.now c result }
{
    counted(w, c, low, high, |c| past_word(w, c))
}

pub fn counted_types(w: &[u16; WORDS], c: Cursor, high: u16) -> Result<Cursor, Fault>
    ensures { Reads (read.counted 0 high read.type) w.now c result }
{
    counted(w, c, 0, high, |c| past_type(w, c))
}

// Whether t is among the n words from a place on; the bound keeps each place a usize.
pub fn stands_before(w: &[u16; WORDS], from: usize, t: u16, n: u16) -> bool
    requires { (j : ℕ) → j < n → from + j < 131072 }
    ensures { result ≡ stands w.now from t n }
{
    (0..n).any(|i| t == word_at(w, from + i as usize))
}
