// Lists of child nodes, of a select's cases and of a loop's inputs, as cells that name earlier cells. A list is a handle: 0 is empty,
// h is cell h, the last of it, with the list before it (of cases: the first, with those after it). Nothing in a cell ever changes.
ghost use Rattle.std.specs.Prelude.{◌≡◌, ◌≤◌};
ghost use Rattle.state_words.specs.Rows as rows;
ghost use Rattle.state_nodes.specs.CellTags as tags;
ghost use Rattle.state_nodes.specs.NodeTables as tables;

use state_words::defined::{CELL_TOTAL, head, set_head};
use state_words::handles::{EMPTY, Handle};
use state_words::sections::{CELLS, get, put_all};
use store::WORDS;

// A cell has six words.
const ROW: usize = 6;

// All blocks of a region; a list behind another; an exit; a select; a loop; a case of a select; an input that a loop keeps. A lent word
// may hold any number: one that is no tag's stays that number.
#[derive(Clone, Copy, PartialEq, Eq)]
pub enum CellTag {
    Blocks,
    Join,
    Exit,
    Select,
    Loop,
    Case,
    Kept,
    Unknown(u16),
}

impl From<u16> for CellTag {
    fn from(word: u16) -> Self
        ensures { result ≡ tags.tag_of word }
    {
        match word {
            1 => CellTag::Blocks,
            2 => CellTag::Join,
            3 => CellTag::Exit,
            4 => CellTag::Select,
            5 => CellTag::Loop,
            6 => CellTag::Case,
            7 => CellTag::Kept,
            _ => CellTag::Unknown(word),
        }
    }
}

impl From<CellTag> for u16 {
    fn from(tag: CellTag) -> u16
        ensures { result ≡ tags.tag_word tag }
    {
        match tag {
            CellTag::Blocks => 1,
            CellTag::Join => 2,
            CellTag::Exit => 3,
            CellTag::Select => 4,
            CellTag::Loop => 5,
            CellTag::Case => 6,
            CellTag::Kept => 7,
            CellTag::Unknown(word) => word,
        }
    }
}

// No nesting makes more: docs/STATE.md has the sum.
const MOST_CELLS: u16 = 652;

// A cell by its tag. What a list or the cases name is an earlier cell.
#[derive(Clone, Copy)]
pub enum Cell {
    Blocks {
        region: u16,
    },
    Join {
        before: Handle,
        list: Handle,
    },
    Exit {
        before: Handle,
        node: u16,
        region: u16,
    },
    Select {
        before: Handle,
        node: u16,
        shape: u16,
        scrutinee: u16,
        cases: Handle,
    },
    // Nothing stands before a loop: its body's children take that place.
    Loop {
        body: Handle,
        node: u16,
        header: u16,
        repeat: u16,
        kept: Handle,
    },
    Case {
        after: Handle,
        region: u16,
        children: Handle,
    },
    // The number of the input, the wrapper region, and the value that is passed back.
    Kept {
        before: Handle,
        input: u16,
        wrapper: u16,
        back: u16,
    },
}

fn cell_word(w: &[u16; WORDS], h: Handle, i: usize) -> u16
    requires { i ≤ 65600 }
    ensures { result ≡ rows.cell_word w.now h.0 i }
{
    get(w, CELLS, ROW * usize::from(h.0) + i)
}

// An earlier handle.
#[tactic(auto, unfolding(state_words::specs::Rows::earlier))]
fn earlier(p: u16, h: Handle) -> Handle
    ensures { result.0 ≡ rows.earlier p h.0 }
{
    if p < h.0 { Handle(p) } else { EMPTY }
}

// The list that a cell names at one of its words.
fn list_word(w: &[u16; WORDS], h: Handle, i: usize) -> Handle
    requires { i ≤ 65600 }
    ensures { result.0 ≡ rows.earlier (rows.cell_word w.now h.0 i) h.0 }
{
    earlier(cell_word(w, h, i), h)
}

pub fn cell_tag(w: &[u16; WORDS], h: Handle) -> CellTag
    ensures { result ≡ tags.tag_of (rows.cell_tag w.now h.0) }
{
    CellTag::from(cell_word(w, h, 0))
}

// The list that a cell follows.
pub fn cell_before(w: &[u16; WORDS], h: Handle) -> Handle
    ensures { result.0 ≡ rows.cell_before w.now h.0 }
{
    list_word(w, h, 1)
}

// The node of an exit, a select or a loop.
pub fn cell_node(w: &[u16; WORDS], h: Handle) -> u16
    ensures { result ≡ rows.cell_node w.now h.0 }
{
    cell_word(w, h, 2)
}

pub fn blocks_region(w: &[u16; WORDS], h: Handle) -> u16
    ensures { result ≡ rows.blocks_region w.now h.0 }
{
    cell_word(w, h, 2)
}

pub fn join_list(w: &[u16; WORDS], h: Handle) -> Handle
    ensures { result.0 ≡ rows.join_list w.now h.0 }
{
    list_word(w, h, 2)
}

pub fn exit_node(w: &[u16; WORDS], h: Handle) -> u16
    ensures { result ≡ rows.exit_node w.now h.0 }
{
    cell_word(w, h, 2)
}

pub fn exit_region(w: &[u16; WORDS], h: Handle) -> u16
    ensures { result ≡ rows.exit_region w.now h.0 }
{
    cell_word(w, h, 3)
}

pub fn select_node(w: &[u16; WORDS], h: Handle) -> u16
    ensures { result ≡ rows.select_node w.now h.0 }
{
    cell_word(w, h, 2)
}

pub fn select_shape(w: &[u16; WORDS], h: Handle) -> u16
    ensures { result ≡ rows.select_shape w.now h.0 }
{
    cell_word(w, h, 3)
}

pub fn select_scrutinee(w: &[u16; WORDS], h: Handle) -> u16
    ensures { result ≡ rows.select_scrutinee w.now h.0 }
{
    cell_word(w, h, 4)
}

pub fn select_cases(w: &[u16; WORDS], h: Handle) -> Handle
    ensures { result.0 ≡ rows.select_cases w.now h.0 }
{
    list_word(w, h, 5)
}

// The children of a loop's body.
pub fn loop_body(w: &[u16; WORDS], h: Handle) -> Handle
    ensures { result.0 ≡ rows.loop_body w.now h.0 }
{
    list_word(w, h, 1)
}

pub fn loop_node(w: &[u16; WORDS], h: Handle) -> u16
    ensures { result ≡ rows.loop_node w.now h.0 }
{
    cell_word(w, h, 2)
}

pub fn loop_header(w: &[u16; WORDS], h: Handle) -> u16
    ensures { result ≡ rows.loop_header w.now h.0 }
{
    cell_word(w, h, 3)
}

pub fn loop_repeat(w: &[u16; WORDS], h: Handle) -> u16
    ensures { result ≡ rows.loop_repeat w.now h.0 }
{
    cell_word(w, h, 4)
}

pub fn loop_kept(w: &[u16; WORDS], h: Handle) -> Handle
    ensures { result.0 ≡ rows.loop_kept w.now h.0 }
{
    list_word(w, h, 5)
}

pub fn cases_after(w: &[u16; WORDS], h: Handle) -> Handle
    ensures { result.0 ≡ rows.cases_after w.now h.0 }
{
    list_word(w, h, 1)
}

pub fn case_region(w: &[u16; WORDS], h: Handle) -> u16
    ensures { result ≡ rows.case_region w.now h.0 }
{
    cell_word(w, h, 2)
}

pub fn children_of_case(w: &[u16; WORDS], h: Handle) -> Handle
    ensures { result.0 ≡ rows.children_of_case w.now h.0 }
{
    list_word(w, h, 3)
}

pub fn kept_input(w: &[u16; WORDS], h: Handle) -> u16
    ensures { result ≡ rows.kept_input w.now h.0 }
{
    cell_word(w, h, 2)
}

pub fn kept_wrapper(w: &[u16; WORDS], h: Handle) -> u16
    ensures { result ≡ rows.kept_wrapper w.now h.0 }
{
    cell_word(w, h, 3)
}

pub fn kept_back(w: &[u16; WORDS], h: Handle) -> u16
    ensures { result ≡ rows.kept_back w.now h.0 }
{
    cell_word(w, h, 4)
}

// The six words of a cell: its tag, the list before it, and what its tag has.
fn cell_words(x: Cell) -> [u16; 6]
    ensures { result ≡ tables.cell_words x }
{
    match x {
        Cell::Blocks { region } => [u16::from(CellTag::Blocks), 0, region, 0, 0, 0],
        Cell::Join { before, list } => [u16::from(CellTag::Join), before.0, list.0, 0, 0, 0],
        Cell::Exit {
            before,
            node,
            region,
        } => [u16::from(CellTag::Exit), before.0, node, region, 0, 0],
        Cell::Select {
            before,
            node,
            shape,
            scrutinee,
            cases,
        } => [
            u16::from(CellTag::Select),
            before.0,
            node,
            shape,
            scrutinee,
            cases.0,
        ],
        Cell::Loop {
            body,
            node,
            header,
            repeat,
            kept,
        } => [
            u16::from(CellTag::Loop),
            body.0,
            node,
            header,
            repeat,
            kept.0,
        ],
        Cell::Case {
            after,
            region,
            children,
        } => [u16::from(CellTag::Case), after.0, region, children.0, 0, 0],
        Cell::Kept {
            before,
            input,
            wrapper,
            back,
        } => [u16::from(CellTag::Kept), before.0, input, wrapper, back, 0],
    }
}

// A cell more, and its handle. There is room for every cell that a nesting can make.
pub fn add_cell(w: &mut [u16; WORDS], x: Cell) -> Handle
    ensures { tables.Adds w.old w.new x result.0 }
{
    let n = head(w, CELL_TOTAL);
    if n >= MOST_CELLS {
        return EMPTY;
    }
    put_all(w, CELLS, ROW * usize::from(n), &cell_words(x));
    set_head(w, CELL_TOTAL, n + 1);
    Handle(n)
}

// A list behind another; no cell where one is empty.
pub fn join(w: &mut [u16; WORDS], a: Handle, b: Handle) -> Handle
    ensures { tables.Joins w.old w.new a.0 b.0 result.0 }
{
    if a == EMPTY {
        b
    } else if b == EMPTY {
        a
    } else {
        add_cell(w, Cell::Join { before: a, list: b })
    }
}
