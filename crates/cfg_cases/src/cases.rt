// The cases of a select, or of a branch: how each target of a region was answered, and what follows a claimed bundle of its own set.
ghost use Rattle.std.specs.Prelude.{◌≡◌, ◌++◌};
ghost use Rattle.record.specs.Stands.{OfRecord};
ghost use Rattle.state_words.specs.Sections as sections;
ghost use Rattle.state_regions.specs.RegionTables as tables;
ghost use Rattle.cfg_bundles.specs.EdgesAndCases as words;
ghost use Rattle.state_words.specs.Rows as rows;

use cfg_bundles::bundles::{defer_edge, passed_inputs};
use state_regions::cases::{Case, CaseKind, set_case, set_case_count, set_case_inputs};
use state_regions::regions::{TargetAnswer, children, structured_body, target_answer};
use state_sets::sets::{
    bundle_at, own_edge, set_length, set_start, shift_remove, target, target_input,
};
use state_words::bundle_numbers::BundleNumber;
use state_words::handles::EMPTY;
use state_words::values::UNDEF;
use store::WORDS;

// A case that is no claimed region.
pub fn unclaimed_case(kind: CaseKind, start: BundleNumber, length: u16) -> Case
    ensures { result ≡ words.unclaimed_case kind start.0 length }
{
    Case {
        kind,
        origin: 0,
        body: 0,
        children: EMPTY,
        start,
        length,
    }
}

fn claimed_case(w: &[u16; WORDS], t: u16) -> Case
    ensures { result ≡ words.claimed_case w.now t }
{
    Case {
        kind: CaseKind::ClaimedRegion,
        origin: t,
        body: structured_body(w, t),
        children: children(w, t),
        start: set_start(w, t),
        length: set_length(w, t),
    }
}

// Case j with its inputs.
fn put_case(w: &mut [u16; WORDS], j: u16, x: Case, vs: &[u16; 4])
    ensures { w.new ≡ sections.stored_all w.old sections.cases (rows.case_row_at j)
        (tables.case_words x ++ vs.now) }
{
    set_case(w, j, x);
    set_case_inputs(w, j, vs);
}

fn fill_case(w: &mut [u16; WORDS], r: u16, j: u16)
    ensures { OfRecord w.old (λ g. w.new ≡ words.case_filled g w.old r j) }
{
    match target_answer(w, r, j) {
        TargetAnswer::Claimed => {
            let x = claimed_case(w, fields::target(w, r, j));
            let vs = passed_inputs(w, r, j);
            put_case(w, j, x, &vs);
        }
        TargetAnswer::Deferred => {
            let p = own_edge(j);
            defer_edge(w, p, r, j);
            set_case(w, j, unclaimed_case(CaseKind::OwnEdge, p, 1));
        }
        _ => set_case(
            w,
            j,
            unclaimed_case(CaseKind::NothingDeferred, BundleNumber(0), 0),
        ),
    }
}

// The Rust's target_regions, from what the level holds of them.
pub fn fill_cases(w: &mut [u16; WORDS], r: u16)
    ensures { OfRecord w.old (λ g. w.new ≡ words.cases_filled g w.old r) }
{
    let n = fields::target_count(w, r);
    set_case_count(w, n);
    for j in 0..n {
        fill_case(w, r, j);
    }
}

#[tactic(auto, unfolding(cfg_bundles::specs::EdgesAndCases::given_word))]
fn given_word(w: &[u16; WORDS], p: BundleNumber, k: u16, n: u16) -> u16
    ensures { result ≡ words.given_word w.now p.0 n k }
{
    if k < n { target_input(w, p, k) } else { UNDEF }
}

// The inputs of the bundle at a place, which goes to a region.
fn given_inputs(w: &[u16; WORDS], p: BundleNumber) -> [u16; 4]
    ensures { OfRecord w.now (λ g. result ≡ words.given_inputs g w.now p.0) }
{
    let n = fields::input_count(w, target(w, p));
    [0, 1, 2, 3].map(|k| given_word(w, p, k, n))
}

// The region that bundle i of region r's set claimed, and the others of that set.
pub fn fill_claimed_and_others(w: &mut [u16; WORDS], r: u16, i: u16)
    ensures { OfRecord w.old (λ g. w.new ≡ words.split_filled g w.old r i) }
{
    let start = set_start(w, r);
    let p = bundle_at(start, i);
    let x = claimed_case(w, target(w, p));
    let vs = given_inputs(w, p);
    shift_remove(w, r, i);
    let n = set_length(w, r);
    set_case_count(w, 2);
    put_case(w, 0, x, &vs);
    set_case(w, 1, unclaimed_case(CaseKind::Others, start, n));
}
