// The inputs that a loop keeps, along their cells: the last is put first, and then their count, which is known only there.
ghost use Rattle.std.specs.Prelude.{◌≡◌, ℕ};
ghost use Rattle.nesting.specs.Nesting.{LoopInputs};
ghost use Rattle.sheet_words.specs.Parts.{OfState, values_part};
ghost use Rattle.sheet_words.specs.PutInFront.{Puts};
ghost use Rattle.sheet_regions.specs.Kept as kept;

use sheet_words::place::{Place, put_word};
use sheet_words::value::put_value;
use state_nodes::cells::{cell_before, kept_back, kept_input, kept_wrapper};
use state_words::handles::Handle;
use state_words::values::input;
use store::WORDS;

// What is passed back at the end of a turn, or what is passed to the first one.
fn kept_value(w: &[u16; WORDS], h: Handle, back: bool) -> u16
    ensures { result ≡ kept.kept_word w.now back h.0 }
{
    if back {
        kept_back(w, h)
    } else {
        input(kept_wrapper(w, h), kept_input(w, h))
    }
}

// The outputs of the loop's body, or the loop's initial inputs.
pub fn put_kept_values(
    w: &[u16; WORDS],
    out: &mut [u32],
    at: Place,
    list: Handle,
    back: bool,
) -> Place
    ensures { OfState w.now (λ g s. (r : ℕ) (y : LoopInputs) → kept.KeepsInputs g w.now r list.0 y
        → Puts out.old at (values_part s (kept.kept_values back y)) out.new result) }
{
    let mut to = at;
    let mut n: u16 = 0;
    let mut h = list;
    while 0 < h.0 {
        to = put_value(w, out, to, kept_value(w, h, back));
        n += 1;
        h = cell_before(w, h);
    }
    put_word(out, to, n)
}
