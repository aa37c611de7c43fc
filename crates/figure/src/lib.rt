// The figure of a nested form: what a run can cost at most. Beyond 4,294,967,295 it is 4,294,967,296, whatever it exceeds.
#![tactic(auto)]

ghost use Rattle.std.specs.Prelude.{◌≤◌};
ghost use Rattle.figure.specs.Figured as figured;

use state_lists::list_before;
use state_nodes::cells::{
    CellTag, blocks_region, cases_after, cell_tag, children_of_case, join_list, loop_body,
    loop_header, select_cases,
};
use state_words::handles::Handle;
use store::WORDS;

pub const TOO_LARGE: u64 = 4294967296;

// The cost of block b of region r. Here and below `map` with `sum` was tried: its bound and its value did not prove.
fn block_figure(w: &[u16; WORDS], r: u16, b: u16) -> u64
    ensures { figured.BlockFigured w.now r b result }
{
    let n = fields::block_length(w, r, b);
    let mut sum: u64 = 0;
    for i in 0..n {
        sum += u64::from(fields::instruction(w, r, b, i).cost);
    }
    sum
}

// The cost of all blocks of region r.
fn blocks_figure(w: &[u16; WORDS], r: u16) -> u64
    ensures { figured.BlocksFigured w.now r result }
{
    let n = fields::block_count(w, r);
    let mut sum: u64 = 0;
    for b in 0..n {
        sum += block_figure(w, r, b);
    }
    sum
}

// The dearest of a list of cases. This loop and that of `figure` go along cells: no index is counted.
#[cycle(cell_figure_dearest_figure)]
fn dearest(w: &[u16; WORDS], cases: Handle) -> u64
    ensures { figured.DearestFigured w.now cases.0 result }
{
    let mut most: u64 = 0;
    let mut h = cases;
    while 0 < h.0 {
        most = most.max(figure(w, children_of_case(w, h)));
        h = cases_after(w, h);
    }
    most
}

// What a cell adds: a block its instructions' sum; a select the test cost and its dearest case; a loop its turn limit times body and
// test cost.
#[cycle(cell_figure_dearest_figure)]
fn cell_figure(w: &[u16; WORDS], h: Handle) -> u64
    requires { 1 ≤ h.0 }
    ensures { figured.CellFigured w.now h.0 result }
{
    let test = u64::from(fields::test_cost(w));
    match cell_tag(w, h) {
        CellTag::Blocks => blocks_figure(w, blocks_region(w, h)).min(TOO_LARGE),
        CellTag::Join => figure(w, join_list(w, h)),
        CellTag::Select => (test + dearest(w, select_cases(w, h))).min(TOO_LARGE),
        CellTag::Loop => {
            let limit = u64::from(fields::limit(w, loop_header(w, h)));
            (limit * (figure(w, loop_body(w, h)) + test)).min(TOO_LARGE)
        }
        _ => 0,
    }
}

// A list of children their sum.
#[cycle(cell_figure_dearest_figure)]
pub fn figure(w: &[u16; WORDS], list: Handle) -> u64
    ensures { figured.Figured w.now list.0 result }
{
    let mut sum: u64 = 0;
    let mut h = list;
    while 0 < h.0 {
        sum = (sum + cell_figure(w, h)).min(TOO_LARGE);
        h = list_before(w, h);
    }
    sum
}
