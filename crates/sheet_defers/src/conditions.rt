// Lazy conditions: t, f and u are 1, 2 and 3; a merge is 4, its node, and its parts with their count.
ghost use Rattle.sheet_defers.specs.Conditions.{PutsCondition};

use sheet_words::place::{Place, put_three, put_word};
use state_nodes::conditions::{MERGE, cond_node, cond_part, cond_shape, shape_size};
use store::WORDS;

// The parts of a condition are earlier records.
pub fn put_condition(w: &[u16; WORDS], out: &mut [u32], at: Place, c: u16) -> Place
    ensures { PutsCondition w.now c out.old at out.new result }
{
    if c < MERGE {
        put_word(out, at, c)
    } else {
        let n = shape_size(cond_shape(w, c));
        let mut to = at;
        for j in (0..n).rev() {
            to = put_condition(w, out, to, cond_part(w, c, j));
        }
        put_three(out, to, MERGE, cond_node(w, c), n)
    }
}
