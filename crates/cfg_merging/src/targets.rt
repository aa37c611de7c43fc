// The full set of deferred targets, with the edges of all cases: a bundle in the spare slot for each.
ghost use Rattle.std.specs.Prelude.{◌≡◌};
ghost use Rattle.cfg_merging.specs.Targets as words;

use state_nodes::conditions::TRUE_COND;
use state_regions::cases::{case_count, case_length, case_start};
use state_sets::sets::{
    SPARE, accumulated_count, bundle_at, find_by_target, put_set_length, set_accumulated_count,
    set_bundle, set_length, set_start, target,
};
use state_words::bundle_numbers::BundleNumber;
use store::WORDS;

fn summarize_bundle(w: &mut [u16; WORDS], p: BundleNumber)
    ensures { w.new ≡ words.summarize_bundle w.old p.0 }
{
    let start = set_start(w, SPARE);
    let n = set_length(w, SPARE);
    let t = target(w, p);
    let count = accumulated_count(w, p);
    match find_by_target(w, start, n, t) {
        None => {
            set_bundle(w, bundle_at(start, n), t, count, TRUE_COND);
            put_set_length(w, SPARE, n.saturating_add(1));
        }
        Some(q) => {
            let before = accumulated_count(w, q);
            set_accumulated_count(w, q, before.plus(count));
        }
    }
}

fn summarize_set(w: &mut [u16; WORDS], start: BundleNumber, n: u16)
    ensures { w.new ≡ words.summarize_set w.old start.0 n }
{
    for i in 0..n {
        summarize_bundle(w, bundle_at(start, i));
    }
}

pub fn deferred_targets(w: &mut [u16; WORDS])
    ensures { w.new ≡ words.deferred_targets w.old }
{
    put_set_length(w, SPARE, 0);
    let n = case_count(w);
    for j in 0..n {
        let start = case_start(w, j);
        let length = case_length(w, j);
        summarize_set(w, start, length);
    }
}
