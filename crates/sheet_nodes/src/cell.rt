// One cell of a list of child nodes: the lists inside it (of a select its cases' children, of a join the list joined, of a loop its
// body's), and the lines that stand before them. They are apart from the walk, and a list that is a loop alone is no level of its own,
// so that the walk takes little stack.
ghost use Rattle.std.specs.Prelude.{◌≡◌};
ghost use Rattle.state_words.specs.Rows as rows;
ghost use Rattle.sheet_nodes.specs.Inside as inside;

use sheet_blocks::blocks::put_blocks;
use sheet_blocks::exits::put_exit;
use sheet_loops::lines::put_loop_lines;
use sheet_selects::{put_case_line, put_select_line};
use sheet_words::place::Place;
use state_lists::{case_cell, case_total};
use state_nodes::cells::{
    CellTag, blocks_region, cell_tag, children_of_case, exit_node, exit_region, join_list,
    loop_body, select_cases, select_node,
};
use state_words::handles::Handle;
use store::WORDS;

// How many lists stand inside cell h.
pub fn inner_total(w: &[u16; WORDS], h: Handle) -> u16
    ensures { inside.InnerTotal w.now h.0 result (rows.cell_tag w.now h.0) }
{
    match cell_tag(w, h) {
        CellTag::Select => case_total(w, select_cases(w, h)),
        CellTag::Join => 1,
        CellTag::Loop => 1,
        _ => 0,
    }
}

// The list inside it at place j.
pub fn inner_at(w: &[u16; WORDS], h: Handle, j: u16) -> Handle
    ensures { result.0 ≡ inside.inner_at w.now h.0 j }
{
    match cell_tag(w, h) {
        CellTag::Select => children_of_case(w, case_cell(w, select_cases(w, h), j)),
        CellTag::Join => join_list(w, h),
        _ => loop_body(w, h),
    }
}

// Whether a list is a loop alone: nothing stands before a loop.
#[tactic(auto, unfolding(crate::specs::Inside::is_loop))]
fn is_loop(w: &[u16; WORDS], list: Handle) -> bool
    ensures { result ≡ inside.is_loop w.now list.0 }
{
    list.0 != 0 && cell_tag(w, list) == CellTag::Loop
}

// The list that is walked for a list: of a loop alone its body's.
pub fn walked_list(w: &[u16; WORDS], list: Handle) -> Handle
    ensures { result.0 ≡ inside.walked_list w.now list.0 }
{
    if is_loop(w, list) {
        loop_body(w, list)
    } else {
        list
    }
}

// The lines before what was walked: of a loop alone, the loop's.
fn put_walked_lines(w: &[u16; WORDS], out: &mut [u32], at: Place, list: Handle) -> Place
    ensures { inside.WalkedLines w.now list.0 out.old at out.new result }
{
    if is_loop(w, list) {
        put_loop_lines(w, out, at, list)
    } else {
        at
    }
}

// The line before a list inside: only a case has one.
fn put_inner_line(w: &[u16; WORDS], out: &mut [u32], at: Place, h: Handle, j: u16) -> Place
    ensures { inside.InnerLine w.now h.0 j out.old at
        out.new result (rows.cell_tag w.now h.0) }
{
    if cell_tag(w, h) == CellTag::Select {
        let c = case_cell(w, select_cases(w, h), j);
        put_case_line(w, out, at, c, select_node(w, h), j)
    } else {
        at
    }
}

// The cell's own lines, before all that stands inside it.
fn put_own_lines(w: &[u16; WORDS], out: &mut [u32], at: Place, h: Handle) -> Place
    ensures { inside.OwnLines w.now h.0 out.old at
        out.new result (rows.cell_tag w.now h.0) }
{
    match cell_tag(w, h) {
        CellTag::Blocks => put_blocks(w, out, at, blocks_region(w, h)),
        CellTag::Exit => put_exit(w, out, at, exit_node(w, h), exit_region(w, h)),
        CellTag::Select => put_select_line(w, out, at, h),
        CellTag::Loop => put_loop_lines(w, out, at, h),
        _ => at,
    }
}

// The lines before what was walked for the list at place j - 1; with 0, the cell's own: the definition LinesPut has this number.
pub fn put_cell_lines(w: &[u16; WORDS], out: &mut [u32], at: Place, h: Handle, j: u16) -> Place
    ensures { inside.LinesPut w.now h.0 j out.old at out.new result }
{
    if j == 0 {
        put_own_lines(w, out, at, h)
    } else {
        let list = inner_at(w, h, j - 1);
        let walked = put_walked_lines(w, out, at, list);
        put_inner_line(w, out, walked, h, j - 1)
    }
}
