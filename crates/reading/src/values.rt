// Values, instructions and blocks.
ghost use Rattle.std.specs.Prelude.{◌≡◌};
ghost use Rattle.format.specs.Read as read;
ghost use Rattle.reading.specs.Answers.{Reads};
ghost use Rattle.reading.specs.Readings.{named_by};

use crate::kinds::{BOOL_KIND, CONST_KIND, INSTR_KIND, UNDEF_KIND};
use crate::words::{Cursor, Fault, counted, within, word};
use store::WORDS;

// Whether a record may have kind k: the output of a node arises only in nesting.
fn is_kind(k: u16) -> bool
    ensures { result ≡ read.is_kind k }
{
    matches!(k, CONST_KIND..=INSTR_KIND | BOOL_KIND | UNDEF_KIND)
}

// Whether i can be the index of a value of kind k: of an undefined value it is the type.
fn index_right(k: u16, i: u16) -> bool
    ensures { result ≡ read.index_right k i }
{
    k != UNDEF_KIND || matches!(i, 1..=255)
}

// The region and the index of a value of kind k.
fn named(w: &[u16; WORDS], c: Cursor, k: u16) -> Result<Cursor, Fault>
    ensures { Reads (named_by k) w.now c result }
{
    let (_, p) = word(w, c)?;
    let (i, e) = word(w, p)?;
    if !index_right(k, i) {
        return Err(Fault::OutOfRange);
    }
    Ok(e)
}

pub fn value(w: &[u16; WORDS], c: Cursor) -> Result<Cursor, Fault>
    ensures { Reads read.read_value w.now c result }
{
    let (k, p) = word(w, c)?;
    if !is_kind(k) {
        return Err(Fault::OutOfRange);
    }
    named(w, p, k)
}

pub fn counted_values(w: &[u16; WORDS], c: Cursor, low: u16, high: u16) -> Result<Cursor, Fault>
    ensures { Reads (read.counted low high read.read_value) w.now c result }
{
    counted(w, c, low, high, |c| value(w, c))
}

pub fn instruction(w: &[u16; WORDS], c: Cursor) -> Result<Cursor, Fault>
    ensures { Reads read.instruction w.now c result }
{
    let (_, p) = word(w, c)?;
    let (_, q) = within(w, p, 0, 255)?;
    let (_, e) = word(w, q)?;
    counted_values(w, e, 0, 3)
}

pub fn block(w: &[u16; WORDS], c: Cursor) -> Result<Cursor, Fault>
    ensures { Reads read.block w.now c result }
{
    counted(w, c, 1, 8, |c| instruction(w, c))
}
