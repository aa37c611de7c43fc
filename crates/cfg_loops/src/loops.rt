// The loop itself: the Rust's order of definitions is wrapper region, look-ups, repeat condition, node.
ghost use Rattle.cfg_loops.specs.Loops as words;

use crate::exits::add_exit_edges;
use crate::inputs::{backedge_inputs, rewrite_values, take_inputs};
use cfg_bundles::bundles::condition_in;
use cfg_lookups::materialize::materialize_lazy_cond;
use state_nodes::cells::{Cell, add_cell};
use state_nodes::rewrites::{RewriteKind, insert_rewrites};
use state_regions::regions::{children, set_children, set_structured_body};
use state_sets::sets::{set_length, split_out_target};
use state_words::bundle_numbers::BundleNumber;
use state_words::defined::{TooMany, define_node, define_region};
use state_words::handles::Handle;
use store::WORDS;

fn add_loop(w: &mut [u16; WORDS], r: u16, node: u16, repeat: u16, kept: Handle)
    ensures { words.AddsLoop r node repeat kept.0 w.old w.new }
{
    let body = children(w, r);
    let h = add_cell(
        w,
        Cell::Loop {
            body,
            node,
            header: r,
            repeat,
            kept,
        },
    );
    set_children(w, r, h);
}

// The repeat condition, then the node.
fn define_loop(w: &mut [u16; WORDS], r: u16, condition: u16, kept: Handle) -> Result<(), TooMany>
    ensures { words.LoopDefined r condition kept.0 w.old w.new result }
{
    let repeat = materialize_lazy_cond(w, condition)?;
    let node = define_node(w)?;
    add_loop(w, r, node, repeat, kept);
    Ok(())
}

// The header's inputs, n of them: what the back edge passes is looked up, taken, and entered. The answer is the list of kept inputs.
fn enter_inputs(w: &mut [u16; WORDS], r: u16, wrapper: u16, n: u16, vs: &mut [u16; 4]) -> Handle
    ensures { words.EntersInputs r wrapper n w.old vs.old w.new result.0 }
{
    rewrite_values(w, vs, n);
    let kept = take_inputs(w, r, wrapper, n, vs);
    insert_rewrites(w, r, RewriteKind::RenumberOrReplaceWith, vs);
    kept
}

// The back edge stands at p in region r's set.
pub fn structurize_loop(w: &mut [u16; WORDS], r: u16, p: BundleNumber) -> Result<(), TooMany>
    ensures { words.StructurizesLoop r p.0 w.old w.new result }
{
    let n = fields::input_count(w, r);
    let condition = condition_in(w, p, set_length(w, r));
    let mut vs = backedge_inputs(w, p);
    split_out_target(w, r, p);
    let wrapper = define_region(w)?;
    let kept = enter_inputs(w, r, wrapper, n, &mut vs);
    define_loop(w, r, condition, kept)?;
    set_structured_body(w, r, wrapper);
    add_exit_edges(w, r);
    Ok(())
}
