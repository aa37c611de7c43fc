// Reading a record's words: refusals 4 and 5 of document 01, and the index of the places where its regions begin.
#![tactic(auto)]

mod index;
pub mod regions;

ghost use Rattle.std.specs.Prelude.{◌≡◌, ◌≤◌};
ghost use Rattle.format.specs.Store.{refused};
ghost use Rattle.format.specs.Read.{word_for};
ghost use Rattle.store.specs.Layout.{record_end};
ghost use Rattle.store.specs.Refusals.{refused_as};
ghost use Rattle.reading.specs.Answers.{fault_number};
ghost use Rattle.record.specs.Outcome.{ReadOutcome};
ghost use Rattle.record.specs.Index.{RegionsOutcome};

use crate::index::put_places;
use crate::regions::{read_head, read_region};
use reading::words::{Cursor, Fault};
use store::layout::{RECORD_END, word_at};
use store::{Refusal, WORDS};

// The refusal of what reading finds wrong in region r.
fn refusal(why: Fault, r: u16) -> Refusal
    ensures { refused_as {A = Unit {0}} result ≡ refused (fault_number why) (word_for (fault_number why) r) }
{
    match why {
        Fault::OutOfRange => Refusal::OutOfRange(r),
        Fault::WrongWordCount => Refusal::WrongWordCount,
    }
}

// n regions from a cursor on; no words may stay over.
fn read_regions(w: &mut [u16; WORDS], from: Cursor, n: u16) -> Result<(), Refusal>
    requires { (from.end ≤ record_end) × (n ≤ 32) }
    ensures { RegionsOutcome n from.end from.at w.old w.new result }
{
    let mut c = from;
    for r in 0..n {
        let x = read_region(w, c).map_err(|why| refusal(why, r))?;
        put_places(w, r, c.at as u16, x);
        c = x.behind;
    }
    if c.at == c.end {
        return Ok(());
    }
    Err(Refusal::WrongWordCount)
}

// The record in front of the words, W of them, which word 0 says; the index is made on the way.
pub fn read_record(w: &mut [u16; WORDS]) -> Result<(), Refusal>
    ensures { ReadOutcome w.old w.new result }
{
    let count = usize::from(word_at(w, 0));
    if RECORD_END < count {
        return Err(Refusal::WrongWordCount);
    }
    let first = Cursor { at: 1, end: count };
    let (n, c) = read_head(w, first).map_err(|why| refusal(why, 0))?;
    read_regions(w, c, n)
}
