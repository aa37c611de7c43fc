// The Rust's try_claim_edge_bundle and structurize_region, which call each other: what falls is the number of regions not begun.
ghost use Rattle.std.specs.Prelude.{◌≤◌};
ghost use Rattle.record.specs.Stands.{OfRecord};
ghost use Rattle.cfg_claims.specs.Claims as words;

use cfg_incoming::count_of;
use cfg_regions::claim::{Claim, claim_by_state, defer_target};
use cfg_regions::inst::{by_control_inst, make_ready, own_bundle, resolve_by};
use state_regions::regions::{
    RegionState, TargetAnswer, region_state, set_region_state, set_target_answer,
};
use state_sets::sets::{RETURN, accumulated_count, set_length, target};
use state_words::defined::count_attempt;
use state_words::edges::{IncomingEdgeCount, ONE};
use store::{Refusal, WORDS};

// A region becomes Ready, with its children and what they defer. Each target is claimed, or its edge is deferred; the terminator makes
// children and a set of deferred edges of them; these are scanned, up to the first claim, until none is claimed. Each turn but the last
// claims a region.
#[cycle(structurize_region_try_claim_edge_bundle)]
fn structurize_region(w: &mut [u16; WORDS], counts: [u32; 32], r: u16) -> Result<(), Refusal>
    requires not_begun { words.NotBegun w.old r }
    requires stood { words.Stood w.old }
    ensures { OfRecord w.old (λ g. words.StructurizesRegion g counts w.old r w.new result) }
{
    set_region_state(w, r, RegionState::InProgress);
    // One place for the answers of both loops' claims: so it stands once in a level.
    let mut claim;
    let n = fields::target_count(w, r);
    for j in 0..n {
        let t = fields::target(w, r, j);
        claim = try_claim_edge_bundle(w, counts, t, ONE)?;
        match claim {
            Claim::Claimed => set_target_answer(w, r, j, TargetAnswer::Claimed),
            Claim::Unclaimed => defer_target(w, r, j, t),
        }
    }
    by_control_inst(w, r)?;
    let mut left = fields::region_count(w);
    // By value once more, beside the loop that hands them on: so the compiler keeps one copy of the counts in a level, and not two.
    let again = counts;
    // Two whiles: the scan's place is used behind it, and `Resolves` tells the turns by how many are left.
    while 0 < left {
        let m = set_length(w, r);
        let mut i: u16 = 0;
        while i < m {
            let p = own_bundle(w, r, i);
            let t = target(w, p);
            if t != RETURN {
                let edges = accumulated_count(w, p);
                claim = try_claim_edge_bundle(w, again, t, edges)?;
                match claim {
                    Claim::Claimed => break,
                    Claim::Unclaimed => {}
                }
            }
            i += 1;
        }
        if m <= i {
            break;
        }
        resolve_by(w, r, i)?;
        left -= 1;
    }
    make_ready(w, r);
    Ok(())
}

// A region is structurized when it is first observed.
#[cycle(structurize_region_try_claim_edge_bundle)]
pub fn try_claim_edge_bundle(
    w: &mut [u16; WORDS],
    counts: [u32; 32],
    r: u16,
    n: IncomingEdgeCount,
) -> Result<Claim, Refusal>
    requires n_bound { n.0 ≤ 65535 }
    requires stood { words.Stood w.old }
    ensures { OfRecord w.old (λ g. words.TriesClaim g counts w.old r n.0 w.new result) }
{
    count_attempt(w);
    if 32 <= r {
        return Err(Refusal::Never(r));
    }
    if region_state(w, r) == RegionState::NotBegun {
        structurize_region(w, counts, r)?;
    }
    claim_by_state(w, r, n, count_of(&counts, r))
}
