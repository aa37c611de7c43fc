// The cases of a select as a whole: which one converges, whether one has children, the regions of those that are not claimed, and
// their inputs replaced.
ghost use Rattle.std.specs.Prelude.{◌≡◌, ◌<◌, IfSome};
ghost use Rattle.cfg_select_nodes.specs.Cases as words;
ghost use Rattle.cfg_select_nodes.specs.Turns as turns;
ghost use Rattle.state_regions.specs.RegionTables as tables;

use cfg_bundles::append::case_inputs;
use state_nodes::rewrites::{RewriteKind, insert_rewrites};
use state_regions::cases::{
    CaseKind, case_body, case_children, case_count, case_kind, case_length, set_case_body,
};
use state_words::defined::{TooMany, define_region};
use state_words::handles::{EMPTY, Handle};
use store::WORDS;

// The place of the one case that is not Unreachable; none if there are none or more.
pub fn convergent_case(w: &[u16; WORDS]) -> Option<u16>
    ensures place { words.place_of result ≡ words.convergent_case w.now }
    ensures few { IfSome result (λ j. j < 8) }
{
    let n = case_count(w);
    let mut found = None;
    for j in 0..n {
        if case_length(w, j) != 0 {
            if found.is_some() {
                return None;
            }
            found = Some(j);
        }
    }
    found
}

// The children of case j; only a claimed region has some.
pub fn children_of(w: &[u16; WORDS], j: u16) -> Handle
    ensures { result.0 ≡ words.children_of w.now j }
{
    if case_kind(w, j) == CaseKind::ClaimedRegion {
        case_children(w, j)
    } else {
        EMPTY
    }
}

pub fn any_non_empty_case(w: &[u16; WORDS]) -> bool
    ensures { result ≡ words.any_non_empty_case w.now }
{
    (0..case_count(w)).any(|j| children_of(w, j) != EMPTY)
}

// A case that is no claimed region gets a new region.
fn case_region(w: &mut [u16; WORDS], j: u16) -> Result<(), TooMany>
    ensures { words.GetsRegion j w.old w.new result }
{
    if case_kind(w, j) == CaseKind::ClaimedRegion {
        return Ok(());
    }
    let r = define_region(w)?;
    set_case_body(w, j, r);
    Ok(())
}

pub fn case_regions(w: &mut [u16; WORDS]) -> Result<(), TooMany>
    ensures { turns.Turns words.GetsRegion (tables.case_total w.old) 0 w.old w.new result }
{
    let n = case_count(w);
    for j in 0..n {
        case_region(w, j)?;
    }
    Ok(())
}

fn replace_input(w: &mut [u16; WORDS], j: u16)
    ensures { w.new ≡ words.inputs_replaced w.old j }
{
    if case_kind(w, j) == CaseKind::ClaimedRegion {
        let vs = case_inputs(w, j);
        let body = case_body(w, j);
        insert_rewrites(w, body, RewriteKind::ReplaceWith, &vs);
    }
}

// Only as the very last step the claimed cases' inputs are replaced.
pub fn replace_inputs(w: &mut [u16; WORDS])
    ensures { w.new ≡ words.all_replaced w.old (tables.case_total w.old) 0 }
{
    let n = case_count(w);
    for j in 0..n {
        replace_input(w, j);
    }
}
