// A region that was structurized, claimed or not, by its state.
ghost use Rattle.std.specs.Prelude.{◌≡◌, ◌≤◌};
ghost use Rattle.record.specs.Stands.{OfRecord};
ghost use Rattle.state_regions.specs.RegionTables.{target_answer_stored, target_answer_word};
ghost use Rattle.state_sets.specs.SetTables.{number_of, Numbered};
ghost use Rattle.cfg_regions.specs.ByState as words;

use cfg_loops::loops::structurize_loop;
use state_regions::regions::{
    RegionState, TargetAnswer, backedge_count, children, region_state, set_region_state,
    set_structured_body, set_target_answer,
};
use state_sets::sets::{find_by_target, set_length, set_start};
use state_words::bundle_numbers::BundleNumber;
use state_words::edges::IncomingEdgeCount;
use state_words::handles::EMPTY;
use store::{Refusal, WORDS};

// What a claim answers: the region is claimed, or the bundle is handed back as it was.
#[derive(Clone, Copy, PartialEq, Eq, Debug)]
pub enum Claim {
    Claimed,
    Unclaimed,
}

// The bundle of region r's set that leads back to it.
pub fn find_backedge(w: &[u16; WORDS], r: u16) -> Option<BundleNumber>
    ensures number { number_of result ≡ words.backedge_at w.now r }
    ensures some { Numbered result }
{
    find_by_target(w, set_start(w, r), set_length(w, r), r)
}

// A claimed region is itself, or, with a back edge, the wrapper of its loop. The back edge is looked for only where there are any.
fn claim_body(w: &mut [u16; WORDS], r: u16) -> Result<Claim, Refusal>
    ensures { OfRecord w.old (λ g. words.ClaimsBody g w.old r w.new result) }
{
    set_region_state(w, r, RegionState::Claimed);
    set_structured_body(w, r, r);
    if backedge_count(w, r) == IncomingEdgeCount::zero() {
        return Ok(Claim::Claimed);
    }
    let Some(p) = find_backedge(w, r) else {
        return Ok(Claim::Claimed);
    };
    structurize_loop(w, r, p)?;
    Ok(Claim::Claimed)
}

// Target, accumulated count, its incoming count. Where the Rust would stop nothing is tested: it is never met (`refused_nine`).
pub fn claim_by_state(
    w: &mut [u16; WORDS],
    r: u16,
    n: IncomingEdgeCount,
    incoming: IncomingEdgeCount,
) -> Result<Claim, Refusal>
    requires { n.0 ≤ 65535 }
    ensures { OfRecord w.old (λ g. words.ClaimsByState g w.old r n.0 incoming.0 w.new result) }
{
    if region_state(w, r) == RegionState::Ready {
        let all = n.plus(backedge_count(w, r));
        if incoming == all {
            return claim_body(w, r);
        }
    }
    Ok(Claim::Unclaimed)
}

// Whether a region is Ready, Unreachable and childless: a failed claim of it defers nothing.
fn is_trivial(w: &[u16; WORDS], t: u16) -> bool
    ensures { result ≡ words.is_trivial w.now t }
{
    region_state(w, t) == RegionState::Ready && set_length(w, t) == 0 && children(w, t) == EMPTY
}

// How the edge to a region that was not claimed is answered.
fn unclaimed_edge(w: &[u16; WORDS], t: u16) -> TargetAnswer
    ensures { target_answer_word result ≡ words.unclaimed_word w.now t }
{
    if is_trivial(w, t) {
        TargetAnswer::Unreachable
    } else {
        TargetAnswer::Deferred
    }
}

// Target j of region r is t, which was not claimed.
pub fn defer_target(w: &mut [u16; WORDS], r: u16, j: u16, t: u16)
    ensures { w.new ≡ target_answer_stored w.old r j (words.unclaimed_word w.old t) }
{
    let x = unclaimed_edge(w, t);
    set_target_answer(w, r, j, x);
}
