// A whole sheet: measured, then written if the lent words are enough.
ghost use Rattle.std.specs.Prelude.{◌≡◌};
ghost use Rattle.sheet.specs.Written as written;
ghost use Rattle.store.specs.declared.refusals.Refusal.TheVariants as refusal;

use crate::first_line::put_first_line;
use crate::leftover::put_leftover;
use crate::pieces::{put_piece, put_whole};
use nesting::{OUTCOME_CLOSED, OUTCOME_LEFTOVER, OUTCOME_UNTOUCHED, OUTCOME_WHOLE};
use sheet_words::place::Place;
use store::{Refusal, WORDS};

// Outcomes as line 1 has them. Numbers, since write_sheet promises a sheet for any word there (WritesSheet).
pub const UNTOUCHED: u16 = OUTCOME_UNTOUCHED as u16;

pub const WHOLE: u16 = OUTCOME_WHOLE as u16;

pub const CLOSED: u16 = OUTCOME_CLOSED as u16;

pub const LEFTOVER: u16 = OUTCOME_LEFTOVER as u16;

// More words than any sheet has that is written, and than can be lent.
const FAR: usize = 1099511627776;

const MOST: usize = 4294967295;

// The lent words are too few for the sheet: refusal 10.
#[derive(Clone, Copy, PartialEq, Eq, Debug)]
pub struct TooFew;

impl From<TooFew> for Refusal {
    ghost from_gives = { λ _ why. why ≡ refusal.TooFewWords };

    fn from(_few: TooFew) -> Refusal {
        Refusal::TooFewWords
    }
}

// How many words are lent; no more than a word can say are used.
fn lent(out: &[u32]) -> usize
    ensures { result ≡ written.lent out.now }
{
    out.len().min(MOST)
}

// The lines behind line 1.
fn put_lines(w: &[u16; WORDS], out: &mut [u32], at: Place, outcome: u16) -> Place
    ensures { written.PutsLines w.now outcome out.old at out.new result }
{
    match outcome {
        WHOLE => put_whole(w, out, at),
        CLOSED => put_piece(w, out, at, fields::entry(w)),
        LEFTOVER => put_leftover(w, out, at),
        _ => at,
    }
}

// A sheet that ends before `end`, and where it begins.
fn put_sheet(w: &[u16; WORDS], out: &mut [u32], end: usize, outcome: u16, figure: u32) -> usize
    ensures { written.PutsSheet w.now outcome figure out.old end out.new result }
{
    let lines = put_lines(w, out, Place { end, twice: false }, outcome);
    let first = put_first_line(w, out, lines, outcome, figure);
    first.end
}

// How many words the sheet has, held at FAR.
fn measure(w: &[u16; WORDS], outcome: u16, figure: u32) -> usize
    ensures { written.Measures w.now outcome figure result }
{
    let mut nowhere = [0u32; 1];
    let begin = put_sheet(w, &mut nowhere[..0], FAR, outcome, figure);
    FAR.saturating_sub(begin)
}

// Nothing is written unless all of it fits.
pub fn write_sheet(
    w: &[u16; WORDS],
    out: &mut [u32],
    outcome: u16,
    figure: u32,
) -> Result<u32, TooFew>
    ensures { written.WritesSheet w.now outcome figure out.old out.new result }
{
    let n = measure(w, outcome, figure);
    if lent(out) < n {
        return Err(TooFew);
    }
    put_sheet(w, out, n, outcome, figure);
    Ok(n as u32)
}
