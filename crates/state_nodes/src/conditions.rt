// Lazy conditions: true, false, undefined, or a record with a part for each case of a select. A record names its select's
// cell, and of conditions only earlier ones.
ghost use Rattle.std.specs.Prelude.{◌≡◌, ◌≤◌};
ghost use Rattle.state_words.specs.Sections as sections;
ghost use Rattle.state_nodes.specs.NodeTables as tables;
ghost use Rattle.state_words.specs.Rows as rows;

use crate::cells::{select_node, select_scrutinee, select_shape};
use state_words::defined::{MERGES, MOST_MERGES, TooMany, head, set_head};
use state_words::handles::Handle;
use state_words::sections::{CONDITIONS, get, put, put_all};
use store::WORDS;

// A record has nine words.
const ROW: usize = 9;

// As the sheet has them; the record of number m is MERGE + m. So a condition stays a number: most of them are places of records.
pub const TRUE_COND: u16 = 1;

pub const FALSE_COND: u16 = 2;

pub const UNDEF_COND: u16 = 3;

pub const MERGE: u16 = 4;

// A select's shape, one word of its cell: 0 for a boolean test, which has two cases, else the number of cases. The definitions
// (shape_size) take the number.
pub const BOOL_COND: u16 = 0;

fn cond_word(w: &[u16; WORDS], c: u16, i: usize) -> u16
    requires { i ≤ 65600 }
    ensures { result ≡ sections.word w.now sections.conditions (rows.merge_word_at c i) }
{
    get(w, CONDITIONS, ROW * (c as usize) + i)
}

// The cell of its select, where node, shape and scrutinee stand.
fn cond_select(w: &[u16; WORDS], c: u16) -> Handle
    ensures { result.0 ≡ rows.merge_select w.now c }
{
    Handle(cond_word(w, c, 0))
}

pub fn cond_node(w: &[u16; WORDS], c: u16) -> u16
    ensures { result ≡ tables.select_word w.now c 2 }
{
    select_node(w, cond_select(w, c))
}

pub fn cond_shape(w: &[u16; WORDS], c: u16) -> u16
    ensures { result ≡ tables.select_word w.now c 3 }
{
    select_shape(w, cond_select(w, c))
}

pub fn cond_scrutinee(w: &[u16; WORDS], c: u16) -> u16
    ensures { result ≡ tables.select_word w.now c 4 }
{
    select_scrutinee(w, cond_select(w, c))
}

// An earlier condition.
pub fn cond_part(w: &[u16; WORDS], c: u16, j: u16) -> u16
    ensures { result ≡ tables.earlier_part (rows.merge_part w.now c j) c }
{
    let p = cond_word(w, c, 1 + (j as usize));
    if p < c {
        return p;
    }
    TRUE_COND
}

// How many cases a select of this shape has.
pub fn shape_size(shape: u16) -> u16
    ensures { result ≡ tables.shape_size shape }
{
    if shape == BOOL_COND {
        return 2;
    }
    if shape < 8 {
        return shape;
    }
    8
}

// A record more, of a select by its cell.
pub fn define_merge(w: &mut [u16; WORDS], select: Handle, parts: &[u16; 8]) -> Result<u16, TooMany>
    ensures { tables.MergeDefined select.0 parts.now w.old w.new result }
{
    let m = head(w, MERGES);
    if m < MOST_MERGES {
        let c = MERGE + m;
        let at = ROW * (c as usize);
        put(w, CONDITIONS, at, select.0);
        put_all(w, CONDITIONS, at + 1, parts);
        set_head(w, MERGES, m + 1);
        return Ok(c);
    }
    Err(TooMany)
}
