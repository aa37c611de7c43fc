// Line 1: outcome, figure, attempts, twice.
ghost use Rattle.std.specs.Prelude.{◌≡◌};
ghost use Rattle.sheet.specs.Written as written;

use sheet_words::place::{Place, put, put_word};
use state_words::defined::{ATTEMPTS, TWICE, head};
use store::WORDS;

// What was noted while nesting, or by the last rewriting.
fn twice_word(w: &[u16; WORDS], at: Place) -> u16
    ensures { result ≡ written.twice_word w.now at }
{
    if at.twice { 1 } else { head(w, TWICE) }
}

pub fn put_first_line(
    w: &[u16; WORDS],
    out: &mut [u32],
    at: Place,
    outcome: u16,
    figure: u32,
) -> Place
    ensures { written.PutsHead w.now outcome figure out.old at out.new result }
{
    let note = twice_word(w, at);
    let twice = put_word(out, at, note);
    let attempts = put_word(out, twice, head(w, ATTEMPTS));
    let cost = put(out, attempts, figure);
    put_word(out, cost, outcome)
}
