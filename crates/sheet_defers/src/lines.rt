// Defer lines: lead, region, target, count, inputs, condition.
ghost use Rattle.std.specs.Prelude.{◌≡◌, length};
ghost use Rattle.nesting.specs.Nesting.{DeferredEdgeBundle, DeferredEdgeBundleSet};
ghost use Rattle.state_shown.specs.Sets.{ShowsBundle};
ghost use Rattle.state_shown.specs.States.{ShowsOwnSet};
ghost use Rattle.sheet_words.specs.Parts.{OfState, each, defer_part};
ghost use Rattle.sheet_words.specs.PutInFront.{Puts};

use crate::conditions::put_condition;
use crate::inputs::put_target_inputs;
use cfg_bundles::bundles::condition_in;
use sheet_words::leads::DEFER_LINE;
use sheet_words::place::{Place, put_three, put_word};
use state_sets::sets::{accumulated_count, bundle_at, set_length, set_start, target};
use state_words::bundle_numbers::BundleNumber;
use store::WORDS;

// Bundle p of a set of `size` bundles.
fn put_bundle(
    w: &[u16; WORDS],
    out: &mut [u32],
    at: Place,
    r: u16,
    p: BundleNumber,
    size: u16,
) -> Place
    ensures { OfState w.now (λ g s. (d : DeferredEdgeBundleSet) (e : DeferredEdgeBundle) → size ≡ length d
        → ShowsBundle g w.now p.0 e → Puts out.old at (defer_part s r d e) out.new result) }
{
    let condition = put_condition(w, out, at, condition_in(w, p, size));
    let inputs = put_target_inputs(w, out, condition, p);
    let to = target(w, p);
    let count = accumulated_count(w, p).to_word();
    let three = put_three(out, inputs, r, to, count);
    put_word(out, three, DEFER_LINE)
}

// In the order of region r's set.
pub fn put_set(w: &[u16; WORDS], out: &mut [u32], at: Place, r: u16) -> Place
    ensures { OfState w.now (λ g s. (d : DeferredEdgeBundleSet) → ShowsOwnSet g w.now r d
        → Puts out.old at (each (defer_part s r d) d) out.new result) }
{
    let start = set_start(w, r);
    let n = set_length(w, r);
    let mut to = at;
    for i in (0..n).rev() {
        to = put_bundle(w, out, to, r, bundle_at(start, i), n);
    }
    to
}
