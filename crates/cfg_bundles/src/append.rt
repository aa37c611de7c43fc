// A region's children and set go on with those of a case.
ghost use Rattle.std.specs.Prelude.{◌≡◌};
ghost use Rattle.cfg_bundles.specs.EdgesAndCases as words;

use state_nodes::cells::join;
use state_nodes::rewrites::{RewriteKind, insert_rewrites};
use state_regions::cases::{Case, CaseKind, case_input};
use state_regions::regions::{children, set_children};
use state_sets::sets::{bundle_at, copy_bundle, put_set_length, set_start, swap_sets};
use store::WORDS;

pub fn case_inputs(w: &[u16; WORDS], j: u16) -> [u16; 4]
    ensures { result ≡ words.case_inputs w.now j }
{
    [0, 1, 2, 3].map(|k| case_input(w, j, k))
}

// Case j, with the parts that it had, stands alone: its children follow the parent's, and its set becomes the parent's.
pub fn append_maybe_claimed_region(w: &mut [u16; WORDS], r: u16, x: Case, j: u16)
    ensures { words.Appends w.old w.new r x j }
{
    match x.kind {
        CaseKind::ClaimedRegion => {
            let vs = case_inputs(w, j);
            insert_rewrites(w, x.body, RewriteKind::ReplaceWith, &vs);
            let before = children(w, r);
            let more = x.children;
            let h = join(w, before, more);
            set_children(w, r, h);
            swap_sets(w, r, x.origin);
        }
        CaseKind::OwnEdge => {
            let p = bundle_at(set_start(w, r), 0);
            copy_bundle(w, p, x.start);
        }
        _ => {}
    }
    put_set_length(w, r, x.length);
}
