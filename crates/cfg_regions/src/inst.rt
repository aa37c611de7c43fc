// What a region's terminator makes of its targets, each claimed or deferred: children, and deferred edges. And a turn of the loop over
// these, and the region when it is done.
ghost use Rattle.std.specs.Prelude.{◌≡◌, ◌≤◌};
ghost use Rattle.record.specs.Stands.{OfRecord};
ghost use Rattle.cfg_regions.specs.ByInst as words;

use crate::claim::find_backedge;
use cfg_bundles::append::append_maybe_claimed_region;
use cfg_bundles::bundles::{condition_in, defer_return};
use cfg_cases::cases::{fill_cases, fill_claimed_and_others};
use cfg_select_nodes::define::Scrutinee;
use cfg_selects::into::structurize_select_into;
use fields::Terminator;
use state_nodes::cells::{Cell, add_cell};
use state_nodes::conditions::BOOL_COND;
use state_regions::cases::case_at;
use state_regions::regions::{
    RegionState, children, set_backedge_count, set_children, set_region_state,
};
use state_sets::sets::{accumulated_count, bundle_at, put_set_length, set_length, set_start};
use state_words::bundle_numbers::BundleNumber;
use state_words::defined::{TooMany, define_node};
use state_words::edges::IncomingEdgeCount;
use state_words::handles::EMPTY;
use state_words::values::value_word;
use store::WORDS;

// A region's blocks are its first children.
fn add_blocks(w: &mut [u16; WORDS], r: u16)
    ensures { OfRecord w.old (λ g. words.AddsBlocks g w.old r w.new) }
{
    let h = if fields::block_count(w, r) == 0 {
        EMPTY
    } else {
        add_cell(w, Cell::Blocks { region: r })
    };
    set_children(w, r, h);
}

fn add_exit(w: &mut [u16; WORDS], r: u16) -> Result<(), TooMany>
    ensures { words.AddsExit w.old r w.new result }
{
    let node = define_node(w)?;
    let before = children(w, r);
    let h = add_cell(
        w,
        Cell::Exit {
            before,
            node,
            region: r,
        },
    );
    set_children(w, r, h);
    Ok(())
}

fn branch(w: &mut [u16; WORDS], r: u16) -> Result<(), TooMany>
    ensures { OfRecord w.old (λ g. words.Branches g w.old r w.new result) }
{
    fill_cases(w, r);
    let x = case_at(w, 0);
    append_maybe_claimed_region(w, r, x, 0);
    Ok(())
}

fn select(w: &mut [u16; WORDS], r: u16, shape: u16) -> Result<(), TooMany>
    ensures { OfRecord w.old (λ g. words.Selects g w.old r shape w.new result) }
{
    fill_cases(w, r);
    let v = fields::value(w, r, 0);
    structurize_select_into(w, r, shape, Scrutinee::Value(value_word(v)))
}

fn select_number(w: &mut [u16; WORDS], r: u16) -> Result<(), TooMany>
    ensures { OfRecord w.old (λ g. words.SelectsNumber g w.old r w.new result) }
{
    let shape = fields::target_count(w, r);
    select(w, r, shape)
}

// By the terminator of region r, whose blocks are its children and whose set is empty.
fn by_terminator(w: &mut [u16; WORDS], r: u16) -> Result<(), TooMany>
    ensures { OfRecord w.old (λ g. words.ByTerminator g w.old r w.new result) }
{
    let kind = fields::terminator(w, r);
    match kind {
        Terminator::Unreachable => Ok(()),
        Terminator::Return => {
            defer_return(w, r);
            Ok(())
        }
        Terminator::ExitInvocation(_) => add_exit(w, r),
        Terminator::Branch => branch(w, r),
        Terminator::SelectBool => select(w, r, BOOL_COND),
        Terminator::SelectNumber => select_number(w, r),
    }
}

// The Rust's match on the control instruction.
pub fn by_control_inst(w: &mut [u16; WORDS], r: u16) -> Result<(), TooMany>
    ensures { OfRecord w.old (λ g. words.ByControlInst g w.old r w.new result) }
{
    add_blocks(w, r);
    put_set_length(w, r, 0);
    by_terminator(w, r)
}

// Bundle i of region r's own set.
pub fn own_bundle(w: &[u16; WORDS], r: u16, i: u16) -> BundleNumber
    ensures { result.0 ≡ words.own_bundle w.now r i }
{
    bundle_at(set_start(w, r), i)
}

// A select on the condition of bundle i: the region that it claimed, or the others.
pub fn resolve_by(w: &mut [u16; WORDS], r: u16, i: u16) -> Result<(), TooMany>
    ensures { OfRecord w.old (λ g. words.ResolvesBy g w.old r i w.new result) }
{
    let n = set_length(w, r);
    let p = own_bundle(w, r, i);
    let condition = condition_in(w, p, n);
    fill_claimed_and_others(w, r, i);
    structurize_select_into(w, r, BOOL_COND, Scrutinee::Lazy(condition))
}

// How many back edges region r's own set has.
fn backedges_deferred(w: &[u16; WORDS], r: u16) -> IncomingEdgeCount
    ensures { (result.0 ≡ words.backedges_deferred w.now r) × (result.0 ≤ 65535) }
{
    match find_backedge(w, r) {
        None => IncomingEdgeCount::zero(),
        Some(p) => accumulated_count(w, p),
    }
}

// The count of back edges is kept with the region.
pub fn make_ready(w: &mut [u16; WORDS], r: u16)
    ensures { w.new ≡ words.made_ready w.old r }
{
    let n = backedges_deferred(w, r);
    set_backedge_count(w, r, n);
    set_region_state(w, r, RegionState::Ready);
}
