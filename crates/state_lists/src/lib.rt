// Lists of child nodes and of a select's cases, along their cells.
#![tactic(auto)]

ghost use Rattle.std.specs.Prelude.{◌≡◌};
ghost use Rattle.state_lists.specs.CellByCell as cells;

use state_nodes::cells::{CellTag, cases_after, cell_before, cell_tag};
use state_words::handles::{EMPTY, Handle};
use store::WORDS;

// The list before a cell; a loop stands alone, and what it names there is its body.
#[tactic(auto, unfolding(crate::specs::CellByCell::list_before))]
pub fn list_before(w: &[u16; WORDS], h: Handle) -> Handle
    ensures { result.0 ≡ cells.list_before w.now h.0 }
{
    if cell_tag(w, h) == CellTag::Loop {
        EMPTY
    } else {
        cell_before(w, h)
    }
}

// How many cases there are from cell `list` on. The loop goes along cells, and knows their number only at the end.
pub fn case_total(w: &[u16; WORDS], list: Handle) -> u16
    ensures { cells.CaseTotal w.now list.0 result }
{
    let mut h = list;
    let mut n: u16 = 0;
    while 0 < h.0 {
        h = cases_after(w, h);
        n += 1;
    }
    n
}

// The cell of the case at place j of them.
pub fn case_cell(w: &[u16; WORDS], list: Handle, j: u16) -> Handle
    ensures { result.0 ≡ cells.case_cell w.now list.0 j }
{
    let mut h = list;
    for _i in 0..j {
        h = cases_after(w, h);
    }
    h
}
