// The types of a region's inputs, with their count in front.
ghost use Rattle.std.specs.Prelude.{◌∷◌, length};
ghost use Rattle.meaning.specs.Graph.{region};
ghost use Rattle.nesting.specs.Nesting.{plain, LoopInputs};
ghost use Rattle.record.specs.Stands.{OfRecord};
ghost use Rattle.sheet_words.specs.Parts.{OfState};
ghost use Rattle.sheet_words.specs.PutInFront.{Puts};
ghost use Rattle.sheet_regions.specs.Kept as kept;

use sheet_words::place::{Place, put_word};
use state_nodes::cells::{cell_before, kept_input};
use state_words::handles::Handle;
use store::WORDS;

// Of all that the record gives region r.
pub fn put_all_types(w: &[u16; WORDS], out: &mut [u32], at: Place, r: u16) -> Place
    ensures { OfRecord w.now (λ g. Puts out.old at
        (plain (length (region g r).inputs ∷ (region g r).inputs)) out.new result) }
{
    let n = fields::input_count(w, r);
    let mut front = at;
    for k in (0..n).rev() {
        front = put_word(out, front, fields::input_type(w, r, k));
    }
    put_word(out, front, n)
}

// Of those that a loop keeps of its header r's, along their cells: how many they are is known at the last.
pub fn put_kept_types(w: &[u16; WORDS], out: &mut [u32], at: Place, list: Handle, r: u16) -> Place
    ensures { OfState w.now (λ g s. (y : LoopInputs) → kept.KeepsInputs g w.now r list.0 y
        → Puts out.old at (plain (length y.types ∷ y.types)) out.new result) }
{
    let mut to = at;
    let mut n: u16 = 0;
    let mut h = list;
    while 0 < h.0 {
        to = put_word(out, to, fields::input_type(w, r, kept_input(w, h)));
        n += 1;
        h = cell_before(w, h);
    }
    put_word(out, to, n)
}
