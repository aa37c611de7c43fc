// The line of a select, and the region lines of its cases.
#![tactic(auto)]

ghost use Rattle.std.specs.Prelude.{◌≡◌};
ghost use Rattle.sheet_words.specs.PutInFront.{Puts};
ghost use Rattle.sheet_selects.specs.OwnOutputs as outputs;
ghost use Rattle.sheet_selects.specs.CaseNumbers as numbers;
ghost use Rattle.sheet_selects.specs.SelectLines as lines;

use sheet_regions::region_line::{RegionInputs, put_region_line};
use sheet_regions::{Counted, put_number};
use sheet_words::leads::{BOOL_SELECT, NUM_SELECT, SELECT_LINE};
use sheet_words::place::{Place, put, put_three, put_word};
use sheet_words::value::put_value;
use state_nodes::cells::{
    case_region, cases_after, children_of_case, select_cases, select_node, select_scrutinee,
    select_shape,
};
use state_nodes::conditions::BOOL_COND;
use state_nodes::outputs::{output_count, output_node, output_type, output_value};
use state_words::handles::Handle;
use store::WORDS;

// ---- The outputs of a node: their values in the case at place j, and their types. Each list has its count in front.
// Two loops: the clause of a closure that puts words would be longer than the loop that it saves.
fn put_case_outputs(w: &[u16; WORDS], out: &mut [u32], at: Place, node: u16, j: u16) -> Place
    ensures { outputs.PutsCaseOutputs w.now node j out.old at out.new result }
{
    let mut e = at;
    let mut n: u16 = 0;
    for o in (0..output_count(w)).rev() {
        if output_node(w, o) == node {
            e = put_value(w, out, e, output_value(w, o, j));
            n += 1;
        }
    }
    put_word(out, e, n)
}

fn put_output_types(w: &[u16; WORDS], out: &mut [u32], at: Place, node: u16) -> Place
    ensures { outputs.PutsOutputTypes w.now node out.old at out.new result }
{
    let mut e = at;
    let mut n: u16 = 0;
    for o in (0..output_count(w)).rev() {
        if output_node(w, o) == node {
            e = put_word(out, e, output_type(w, o));
            n += 1;
        }
    }
    put_word(out, e, n)
}

// ---- The regions of cases: those after the first are put before it.
fn put_regions(w: &[u16; WORDS], out: &mut [u32], x: Counted, list: Handle) -> Counted
    ensures { numbers.PutsRegions w.now list.0 out.old x out.new result }
{
    if list.0 == 0 {
        x
    } else {
        let y = put_regions(w, out, x, cases_after(w, list));
        put_number(out, y, u32::from(case_region(w, list)))
    }
}

fn put_case_numbers(w: &[u16; WORDS], out: &mut [u32], at: Place, list: Handle) -> Place
    ensures { numbers.PutsCaseNumbers w.now list.0 out.old at out.new result }
{
    let x = put_regions(w, out, Counted { at, count: 0 }, list);
    put(out, x.at, x.count)
}

// ---- The lines.
fn kind_word(shape: u16) -> u16
    ensures { result ≡ lines.kind_word shape }
{
    if shape == BOOL_COND {
        BOOL_SELECT
    } else {
        NUM_SELECT
    }
}

// The region line of a case, at place j of its node's; it has no inputs.
pub fn put_case_line(
    w: &[u16; WORDS],
    out: &mut [u32],
    at: Place,
    h: Handle,
    node: u16,
    j: u16,
) -> Place
    ensures { lines.PutsCaseLine w.now h.0 node j out.old at out.new result }
{
    let outputs = put_case_outputs(w, out, at, node, j);
    let r = case_region(w, h);
    let list = children_of_case(w, h);
    put_region_line(w, out, outputs, r, RegionInputs::None, list)
}

// The line of a select, without those of its cases.
pub fn put_select_line(w: &[u16; WORDS], out: &mut [u32], at: Place, h: Handle) -> Place
    ensures { lines.PutsSelectLine w.now h.0 out.old at out.new result }
{
    let node = select_node(w, h);
    let types = put_output_types(w, out, at, node);
    let cases = put_case_numbers(w, out, types, select_cases(w, h));
    let value = put_value(w, out, cases, select_scrutinee(w, h));
    let kind = kind_word(select_shape(w, h));
    put_three(out, value, SELECT_LINE, node, kind)
}
