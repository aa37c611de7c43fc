// What each case passes to a target, and under which condition; and what of it is the same in all cases.
ghost use Rattle.std.specs.Prelude.{◌≡◌};
ghost use Rattle.record.specs.Stands.{OfRecord};
ghost use Rattle.cfg_planning.specs.Planning as words;

use cfg_bundles::bundles::{condition_in, target_input_count};
use state_nodes::conditions::{FALSE_COND, TRUE_COND, UNDEF_COND};
use state_regions::cases::{
    CaseKind, case_body, case_count, case_input, case_kind, case_length, case_start,
};
use state_sets::sets::{
    NO_BUNDLE, SPARE, bundle_at, find_by_target, set_condition, set_length, set_start,
    set_target_input, target, target_input,
};
use state_words::bundle_numbers::BundleNumber;
use state_words::values::{input_index, input_region, is_const, is_input};
use store::WORDS;

// An input that is to be an output of the select, and a condition that is to be a record of it. They stand in the lent words, so they
// are numbers.
pub const TO_MERGE: u16 = 65535;

pub const TO_DEFINE: u16 = 0;

// The cases' bundles to a target, by number: the definition has 0 behind the last case, so no Option here.
pub fn per_case_deferred(w: &[u16; WORDS], t: u16) -> [u16; 8]
    ensures { result ≡ words.per_case_deferred w.now t }
{
    let n = case_count(w);
    let mut places = [0u16; 8];
    for j in 0..n {
        let p = find_by_target(w, case_start(w, j), case_length(w, j), t);
        places[usize::from(j)] = p.map_or(NO_BUNDLE, |b| b.0);
    }
    places
}

// Undef if the case ends, False if it goes elsewhere.
#[tactic(auto, unfolding(crate::specs::Planning::per_case_condition))]
pub fn per_case_condition(w: &[u16; WORDS], j: u16, p: BundleNumber) -> u16
    ensures { result ≡ words.per_case_condition w.now j p.0 }
{
    let n = case_length(w, j);
    if n == 0 {
        UNDEF_COND
    } else if p.0 == NO_BUNDLE {
        FALSE_COND
    } else {
        condition_in(w, p, n)
    }
}

// A case's value as one that is valid in the select's parent; TO_MERGE where it can't be.
#[tactic(auto, unfolding(crate::specs::Planning::in_parent))]
fn in_parent(w: &[u16; WORDS], j: u16, v: u16) -> u16
    ensures { result ≡ words.in_parent w.now j v }
{
    if case_kind(w, j) != CaseKind::ClaimedRegion || is_const(v) {
        v
    } else if is_input(v) && input_region(v) == case_body(w, j) {
        case_input(w, j, input_index(v))
    } else {
        TO_MERGE
    }
}

// What the cases so far pass, with one more: TO_MERGE where they differ.
#[tactic(auto, unfolding(crate::specs::Planning::with_passed))]
fn with_passed(found: u16, v: u16) -> u16
    ensures { result ≡ words.with_passed found v }
{
    if found == TO_MERGE || found == v {
        v
    } else {
        TO_MERGE
    }
}

// The Rust's unique_target_input_value: the same value in all cases that reach the target, else TO_MERGE.
fn unique_input(w: &[u16; WORDS], places: &[u16; 8], k: u16) -> u16
    ensures { result ≡ words.unique_input w.now places.now k }
{
    let n = case_count(w);
    let mut found = TO_MERGE;
    for j in 0..n {
        let p = places[usize::from(j)];
        if p != NO_BUNDLE {
            let v = in_parent(w, j, target_input(w, BundleNumber(p), k));
            found = with_passed(found, v);
            if found == TO_MERGE {
                return TO_MERGE;
            }
        }
    }
    found
}

#[tactic(auto, unfolding(crate::specs::Planning::is_true))]
fn is_true(c: u16) -> bool
    ensures { result ≡ words.is_true c }
{
    c == TRUE_COND || c == UNDEF_COND
}

// Document 01: a condition is True when every case is True or Undef.
fn all_true(w: &[u16; WORDS], places: &[u16; 8]) -> bool
    ensures { result ≡ words.all_true w.now places.now }
{
    (0..case_count(w)).all(|j| {
        is_true(per_case_condition(w, j, BundleNumber(places[usize::from(j)])))
    })
}

// Each answers whether something is still to be made.
fn plan_input(w: &mut [u16; WORDS], q: BundleNumber, places: &[u16; 8], k: u16) -> bool
    ensures { words.planned w.new result ≡ words.plan_input w.old q.0 places.now k }
{
    let v = unique_input(w, places, k);
    set_target_input(w, q, k, v);
    v == TO_MERGE
}

fn plan_inputs(w: &mut [u16; WORDS], q: BundleNumber, places: &[u16; 8]) -> bool
    ensures { OfRecord w.old (λ g.
        words.planned w.new result ≡ words.plan_inputs g w.old q.0 places.now) }
{
    let n = target_input_count(w, target(w, q));
    let mut merged = false;
    for k in 0..n {
        merged |= plan_input(w, q, places, k);
    }
    merged
}

fn plan_bundle(w: &mut [u16; WORDS], q: BundleNumber) -> bool
    ensures { OfRecord w.old (λ g. words.planned w.new result ≡ words.plan_bundle g w.old q.0) }
{
    let places = per_case_deferred(w, target(w, q));
    let merged = plan_inputs(w, q, &places);
    if all_true(w, &places) {
        merged
    } else {
        set_condition(w, q, TO_DEFINE);
        true
    }
}

pub fn plan_bundles(w: &mut [u16; WORDS]) -> bool
    ensures { OfRecord w.old (λ g. words.planned w.new result ≡ words.plan_bundles g w.old) }
{
    let start = set_start(w, SPARE);
    let n = set_length(w, SPARE);
    let mut needed = false;
    for i in 0..n {
        needed |= plan_bundle(w, bundle_at(start, i));
    }
    needed
}
