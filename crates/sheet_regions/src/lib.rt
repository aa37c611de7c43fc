// The line of a region, and the numbers of a list's child nodes in it, with their count in front.
#![tactic(auto)]

ghost use Rattle.std.specs.Prelude.{[], ◌∷◌};
ghost use Rattle.sheet_regions.specs.Numbers as numbers;
ghost use Rattle.sheet_regions.specs.Lists as lists;

pub mod region_line;
pub mod types;

use sheet_words::place::{Place, put};
use state_lists::list_before;
use state_nodes::cells::{CellTag, blocks_region, cell_node, cell_tag, join_list};
use state_words::handles::Handle;
use store::WORDS;

// Where the next number ends, and how many were put.
#[derive(Clone, Copy)]
pub struct Counted {
    pub at: Place,
    pub count: u32,
}

pub fn put_number(out: &mut [u32], x: Counted, node: u32) -> Counted
    ensures { numbers.PutsNumbers out.old x (node ∷ []) out.new result }
{
    Counted {
        at: put(out, x.at, node),
        count: x.count.saturating_add(1),
    }
}

fn put_block_numbers(w: &[u16; WORDS], out: &mut [u32], x: Counted, r: u16) -> Counted
    ensures { lists.PutsBlocks w.now r out.old x out.new result }
{
    let first = fields::blocks_before(w, r);
    let mut y = x;
    for b in (0..fields::block_count(w, r)).rev() {
        y = put_number(out, y, first + u32::from(b));
    }
    y
}

// What a cell adds to a list, but for another list.
fn put_cell_numbers(w: &[u16; WORDS], out: &mut [u32], x: Counted, h: Handle) -> Counted
    ensures { lists.PutsCellNumbers w.now h.0 out.old x out.new result }
{
    if cell_tag(w, h) == CellTag::Blocks {
        put_block_numbers(w, out, x, blocks_region(w, h))
    } else {
        put_number(out, x, u32::from(cell_node(w, h)))
    }
}

// Along cells: no index is counted.
fn put_numbers(w: &[u16; WORDS], out: &mut [u32], x: Counted, list: Handle) -> Counted
    ensures { lists.PutsList w.now list.0 out.old x out.new result }
{
    let mut y = x;
    let mut h = list;
    while 0 < h.0 {
        // Both arms set y: a value of the `if` would stand in each frame of this recursion once more.
        if cell_tag(w, h) == CellTag::Join {
            y = put_numbers(w, out, y, join_list(w, h));
        } else {
            y = put_cell_numbers(w, out, y, h);
        }
        h = list_before(w, h);
    }
    y
}

pub fn put_kids(w: &[u16; WORDS], out: &mut [u32], at: Place, list: Handle) -> Place
    ensures { lists.PutsKids w.now list.0 out.old at out.new result }
{
    let x = put_numbers(w, out, Counted { at, count: 0 }, list);
    put(out, x.at, x.count)
}
