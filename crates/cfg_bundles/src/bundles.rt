// Deferred edge bundles over the record: how many inputs a target has and their types, and bundles made of its edges and values.
ghost use Rattle.std.specs.Prelude.{◌≡◌, ◌∷◌};
ghost use Rattle.record.specs.Stands.{OfRecord};
ghost use Rattle.fields.specs.ByNumber.{end_values, edge_of};
ghost use Rattle.state_words.specs.Sections as sections;
ghost use Rattle.state_words.specs.Totals as totals;
ghost use Rattle.cfg_bundles.specs.EdgesAndCases as words;
ghost use Rattle.state_words.specs.Rows as rows;

use state_nodes::conditions::TRUE_COND;
use state_sets::sets::{
    RETURN, bundle_at, condition, put_set_length, set_bundle, set_start, set_target_inputs,
};
use state_words::bundle_numbers::BundleNumber;
use state_words::defined::{RETURNED, head, returned_type};
use state_words::edges::{IncomingEdgeCount, ONE};
use state_words::values::{UNDEF, value_word};
use store::WORDS;
use store::layout::word_at;

#[tactic(auto, unfolding(crate::specs::EdgesAndCases::input_count))]
pub fn target_input_count(w: &[u16; WORDS], t: u16) -> u16
    ensures { OfRecord w.now (λ g. result ≡ words.input_count g w.now t) }
{
    if t == RETURN {
        head(w, RETURNED)
    } else {
        fields::input_count(w, t)
    }
}

// All Return regions agree in types.
#[tactic(auto, unfolding(crate::specs::EdgesAndCases::target_type))]
pub fn target_input_type(w: &[u16; WORDS], t: u16, k: u16) -> u16
    ensures { OfRecord w.now (λ g. result ≡ words.target_type g w.now t k) }
{
    if t == RETURN {
        returned_type(w, k)
    } else {
        fields::input_type(w, t, k)
    }
}

// The Rust's Always: a set of one, whose condition is dropped.
#[tactic(auto, unfolding(crate::specs::EdgesAndCases::condition_in))]
pub fn condition_in(w: &[u16; WORDS], p: BundleNumber, n: u16) -> u16
    ensures { result ≡ words.condition_in w.now p.0 n }
{
    if n == 1 { TRUE_COND } else { condition(w, p) }
}

// Value k of the n that are listed at a place; beyond them undefined, of type 0.
fn listed_word(w: &[u16; WORDS], p: u16, k: u16, n: u16) -> u16
    ensures { result ≡ words.listed_word w.now p n k }
{
    if k < n {
        value_word(fields::value_item(w, p, k))
    } else {
        UNDEF
    }
}

// The values that are listed at a place.
fn listed_inputs(w: &[u16; WORDS], p: u16) -> [u16; 4]
    ensures { result ≡ words.listed w.now p }
{
    let n = word_at(w, usize::from(p));
    [0, 1, 2, 3].map(|k| listed_word(w, p, k, n))
}

// The values that region r passes to its target at place j.
pub fn passed_inputs(w: &[u16; WORDS], r: u16, j: u16) -> [u16; 4]
    ensures { OfRecord w.now (λ g. result ≡ words.padded (edge_of g r j).inputs) }
{
    listed_inputs(w, fields::passed_list(w, r, j))
}

fn returned_inputs(w: &[u16; WORDS], r: u16) -> [u16; 4]
    ensures { OfRecord w.now (λ g. result ≡ words.padded (end_values g r)) }
{
    listed_inputs(w, fields::value_list(w, r))
}

// A bundle with its inputs.
pub fn put_bundle(
    w: &mut [u16; WORDS],
    p: BundleNumber,
    t: u16,
    n: IncomingEdgeCount,
    c: u16,
    vs: &[u16; 4],
)
    ensures { w.new ≡ sections.stored_all w.old sections.bundles (rows.bundle_row_at p.0)
        (t ∷ totals.edges_word n.0 ∷ c ∷ vs.now) }
{
    set_bundle(w, p, t, n, c);
    set_target_inputs(w, p, vs);
}

// Region r's edge at place j, as a bundle of one.
pub fn defer_edge(w: &mut [u16; WORDS], p: BundleNumber, r: u16, j: u16)
    ensures { OfRecord w.old (λ g. w.new ≡ words.edge_deferred g w.old p.0 r j) }
{
    let t = fields::target(w, r, j);
    let vs = passed_inputs(w, r, j);
    put_bundle(w, p, t, ONE, TRUE_COND, &vs);
}

// Always Return.
pub fn defer_return(w: &mut [u16; WORDS], r: u16)
    ensures { OfRecord w.old (λ g. w.new ≡ words.return_deferred g w.old r) }
{
    let p = bundle_at(set_start(w, r), 0);
    let vs = returned_inputs(w, r);
    put_bundle(w, p, RETURN, IncomingEdgeCount::zero(), TRUE_COND, &vs);
    put_set_length(w, r, 1);
}
