// The values of the cases, each looked up. The loops and the pairs of load and store are alike and stay apart: a closure for what differs
// would need a clause on each of its calls, longer than they are.
ghost use Rattle.std.specs.Prelude.{◌≡◌};
ghost use Rattle.record.specs.Stands.{OfRecord};
ghost use Rattle.cfg_merging.specs.Rewriting as words;

use cfg_bundles::bundles::target_input_count;
use cfg_lookups::look_up::look_up_noting;
use state_regions::cases::{
    CaseKind, case_count, case_input, case_kind, case_length, case_origin, case_start,
    set_case_input,
};
use state_sets::sets::{bundle_at, set_target_input, target, target_input};
use state_words::bundle_numbers::BundleNumber;
use store::WORDS;

fn rewrite_input(w: &mut [u16; WORDS], p: BundleNumber, k: u16)
    ensures { w.new ≡ words.rewrite_input w.old p.0 k }
{
    let v = target_input(w, p, k);
    let x = look_up_noting(w, v);
    set_target_input(w, p, k, x);
}

fn rewrite_bundle(w: &mut [u16; WORDS], p: BundleNumber)
    ensures { OfRecord w.old (λ g. w.new ≡ words.rewrite_bundle g w.old p.0) }
{
    let n = target_input_count(w, target(w, p));
    for k in 0..n {
        rewrite_input(w, p, k);
    }
}

fn rewrite_set(w: &mut [u16; WORDS], start: BundleNumber, n: u16)
    ensures { OfRecord w.old (λ g. w.new ≡ words.rewrite_set g w.old start.0 n) }
{
    for i in 0..n {
        rewrite_bundle(w, bundle_at(start, i));
    }
}

fn rewrite_case_input(w: &mut [u16; WORDS], j: u16, k: u16)
    ensures { w.new ≡ words.rewrite_case_input w.old j k }
{
    let v = case_input(w, j, k);
    let x = look_up_noting(w, v);
    set_case_input(w, j, k, x);
}

fn rewrite_inputs(w: &mut [u16; WORDS], j: u16)
    ensures { OfRecord w.old (λ g. w.new ≡ words.rewrite_inputs g w.old j) }
{
    let n = fields::input_count(w, case_origin(w, j));
    for k in 0..n {
        rewrite_case_input(w, j, k);
    }
}

// What a claimed region is given.
fn rewrite_given(w: &mut [u16; WORDS], j: u16)
    ensures { OfRecord w.old (λ g. w.new ≡ words.rewrite_given g w.old j) }
{
    if case_kind(w, j) == CaseKind::ClaimedRegion {
        rewrite_inputs(w, j);
    }
}

fn rewrite_case(w: &mut [u16; WORDS], j: u16)
    ensures { OfRecord w.old (λ g. w.new ≡ words.rewrite_case g w.old j) }
{
    rewrite_given(w, j);
    let start = case_start(w, j);
    let n = case_length(w, j);
    rewrite_set(w, start, n);
}

pub fn rewrite_cases(w: &mut [u16; WORDS])
    ensures { OfRecord w.old (λ g. w.new ≡ words.rewrite_cases g w.old) }
{
    let n = case_count(w);
    for j in 0..n {
        rewrite_case(w, j);
    }
}
