// The select is defined: regions of its cases, its scrutinee's value, its node, and the cell behind the region's children.
ghost use Rattle.cfg_select_nodes.specs.Selects as words;
ghost use Rattle.state_regions.specs.RegionTables as tables;

use crate::cases::{case_regions, children_of};
use cfg_lookups::materialize::materialize_lazy_cond;
use state_nodes::cells::{Cell, add_cell};
use state_regions::cases::{case_body, case_count};
use state_regions::regions::{children, set_children};
use state_words::defined::{TooMany, define_node};
use state_words::handles::{EMPTY, Handle};
use store::WORDS;

// The Rust's Result<Value, &LazyCond>.
#[derive(Clone, Copy)]
pub enum Scrutinee {
    Value(u16),
    Lazy(u16),
}

fn scrutinee_value(w: &mut [u16; WORDS], scrutinee: Scrutinee) -> Result<u16, TooMany>
    ensures { words.ScrutineeMade w.old scrutinee w.new result }
{
    match scrutinee {
        Scrutinee::Value(v) => Ok(v),
        Scrutinee::Lazy(c) => materialize_lazy_cond(w, c),
    }
}

// The cells of the cases, the last first.
fn case_cells(w: &mut [u16; WORDS]) -> Handle
    ensures { words.CaseCells (tables.case_total w.old) 0 w.old w.new result.0 }
{
    let mut h = EMPTY;
    let n = case_count(w);
    for j in (0..n).rev() {
        let body = case_body(w, j);
        let kids = children_of(w, j);
        h = add_cell(
            w,
            Cell::Case {
                after: h,
                region: body,
                children: kids,
            },
        );
    }
    h
}

// The select behind region r's children, and its cell.
fn add_select(w: &mut [u16; WORDS], r: u16, node: u16, shape: u16, v: u16) -> Handle
    ensures { words.SelectAdded r node shape v w.old w.new result.0 }
{
    let cases = case_cells(w);
    let before = children(w, r);
    let h = add_cell(
        w,
        Cell::Select {
            before,
            node,
            shape,
            scrutinee: v,
            cases,
        },
    );
    set_children(w, r, h);
    h
}

// The Rust's order of definitions: new case regions, what the scrutinee adds, the node.
pub fn define_select(
    w: &mut [u16; WORDS],
    r: u16,
    shape: u16,
    scrutinee: Scrutinee,
) -> Result<u16, TooMany>
    ensures { words.SelectDefined r shape scrutinee w.old w.new result }
{
    case_regions(w)?;
    let v = scrutinee_value(w, scrutinee)?;
    let node = define_node(w)?;
    let h = add_select(w, r, node, shape, v);
    Ok(h.0)
}
