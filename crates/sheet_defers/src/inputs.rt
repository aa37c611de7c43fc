// The target inputs of a deferred edge bundle, with their count in front.
ghost use Rattle.nesting.specs.Nesting.{DeferredEdgeBundle};
ghost use Rattle.state_shown.specs.Sets.{ShowsBundle};
ghost use Rattle.sheet_words.specs.Parts.{OfState, values_part};
ghost use Rattle.sheet_words.specs.PutInFront.{Puts};

use cfg_bundles::bundles::target_input_count;
use sheet_words::place::Place;
use sheet_words::value::put_values;
use state_sets::sets::{target, target_input};
use state_words::bundle_numbers::BundleNumber;
use store::WORDS;

// In its own line, or as the outputs of a whole form.
pub fn put_target_inputs(w: &[u16; WORDS], out: &mut [u32], at: Place, p: BundleNumber) -> Place
    ensures { OfState w.now (λ g s. (e : DeferredEdgeBundle) → ShowsBundle g w.now p.0 e
        → Puts out.old at (values_part s e.target_inputs) out.new result) }
{
    let n = target_input_count(w, target(w, p));
    put_values(w, out, at, n, |k| target_input(w, p, k))
}
