// Deferred edge bundles by number, and their sets. A bundle has a target, an accumulated count, a condition, and as many inputs as the
// target has. A region's set is the first bundles of its slot; slot 32 is the spare, in which a select's set is made.
ghost use Rattle.std.specs.Prelude.{◌≡◌, [], ◌∷◌, ◌-◌, ◌≤◌, ◌<◌};
ghost use Rattle.state_words.specs.Sections as sections;
ghost use Rattle.state_sets.specs.SetTables as tables;
ghost use Rattle.state_words.specs.Totals as totals;
ghost use Rattle.state_words.specs.Rows as rows;

use state_words::bundle_numbers::BundleNumber;
use state_words::edges::IncomingEdgeCount;
use state_words::sections::{BUNDLES, SET_LENGTHS, SET_STARTS, get, put, put_all};
use store::WORDS;

// A bundle has seven words.
const ROW: usize = 7;

// The target of a Return: a number among the regions', as the definitions and the sheet have it.
pub const RETURN: u16 = 65535;

pub const SPARE: u16 = 32;

// The number of no bundle: nothing is read or stored there. `slot`, `own_edge` and `bundle_at` of SetTables give it too, so no Option here.
pub const NO_BUNDLE: u16 = 65535;

// The bundle of the first case's own edge.
const OWN_EDGES: u16 = 1089;

// Behind the last of them.
const MOST_BUNDLES: u16 = 1097;

pub fn set_start(w: &[u16; WORDS], r: u16) -> BundleNumber
    ensures { result.0 ≡ sections.word w.now sections.set_starts r }
{
    BundleNumber(get(w, SET_STARTS, usize::from(r)))
}

pub fn put_set_start(w: &mut [u16; WORDS], r: u16, start: BundleNumber)
    ensures { w.new ≡ sections.stored w.old sections.set_starts r start.0 }
{
    put(w, SET_STARTS, usize::from(r), start.0);
}

pub fn set_length(w: &[u16; WORDS], r: u16) -> u16
    ensures { result ≡ sections.word w.now sections.set_lengths r }
{
    get(w, SET_LENGTHS, usize::from(r))
}

pub fn put_set_length(w: &mut [u16; WORDS], r: u16, n: u16)
    ensures { w.new ≡ sections.stored w.old sections.set_lengths r n }
{
    put(w, SET_LENGTHS, usize::from(r), n);
}

// The first bundle of slot r.
#[tactic(auto, unfolding(crate::specs::SetTables::slot))]
pub fn slot(r: u16) -> BundleNumber
    ensures { result.0 ≡ tables.slot r }
{
    if r < 33 {
        BundleNumber(33 * r)
    } else {
        BundleNumber(NO_BUNDLE)
    }
}

// The bundle of case j's own edge.
#[tactic(auto, unfolding(crate::specs::SetTables::own_edge))]
pub fn own_edge(j: u16) -> BundleNumber
    ensures { result.0 ≡ tables.own_edge j }
{
    if j < 8 {
        BundleNumber(OWN_EDGES + j)
    } else {
        BundleNumber(NO_BUNDLE)
    }
}

// A bundle, unless its number is that of none.
fn numbered(b: BundleNumber) -> Option<BundleNumber>
    ensures number { tables.number_of result ≡ b.0 }
    ensures some { tables.Numbered result }
{
    if b.0 == NO_BUNDLE { None } else { Some(b) }
}

// Bundle i of those from `start` on.
#[tactic(auto, unfolding(crate::specs::SetTables::bundle_at))]
pub fn bundle_at(start: BundleNumber, i: u16) -> BundleNumber
    ensures { result.0 ≡ tables.bundle_at start.0 i }
{
    if start.0 < MOST_BUNDLES && i < 33 {
        BundleNumber(start.0 + i)
    } else {
        BundleNumber(NO_BUNDLE)
    }
}

// Two slots change hands.
pub fn swap_sets(w: &mut [u16; WORDS], a: u16, b: u16)
    ensures { w.new ≡ tables.swapped w.old a b }
{
    let p = set_start(w, a);
    let q = set_start(w, b);
    put_set_start(w, a, q);
    put_set_start(w, b, p);
}

fn word(w: &[u16; WORDS], b: BundleNumber, i: u16) -> u16
    ensures { result ≡ rows.bundle_word w.now b.0 i }
{
    get(w, BUNDLES, ROW * usize::from(b.0) + usize::from(i))
}

fn set_word(w: &mut [u16; WORDS], b: BundleNumber, i: u16, x: u16)
    ensures { w.new ≡ sections.stored w.old sections.bundles (rows.bundle_word_at b.0 i) x }
{
    put(w, BUNDLES, ROW * usize::from(b.0) + usize::from(i), x);
}

pub fn target(w: &[u16; WORDS], b: BundleNumber) -> u16
    ensures { result ≡ rows.bundle_target w.now b.0 }
{
    word(w, b, 0)
}

pub fn accumulated_count(w: &[u16; WORDS], b: BundleNumber) -> IncomingEdgeCount
    ensures { (result.0 ≡ rows.bundle_count w.now b.0) × (result.0 ≤ 65535) }
{
    IncomingEdgeCount::from(word(w, b, 1))
}

pub fn set_accumulated_count(w: &mut [u16; WORDS], b: BundleNumber, n: IncomingEdgeCount)
    ensures { w.new ≡ sections.stored w.old sections.bundles (rows.bundle_count_at b.0)
        (totals.edges_word n.0) }
{
    set_word(w, b, 1, n.to_word());
}

pub fn condition(w: &[u16; WORDS], b: BundleNumber) -> u16
    ensures { result ≡ rows.bundle_condition w.now b.0 }
{
    word(w, b, 2)
}

pub fn set_condition(w: &mut [u16; WORDS], b: BundleNumber, c: u16)
    ensures { w.new ≡ sections.stored w.old sections.bundles (rows.bundle_condition_at b.0) c }
{
    set_word(w, b, 2, c);
}

#[tactic(auto, unfolding(crate::specs::SetTables::input_word))]
pub fn target_input(w: &[u16; WORDS], b: BundleNumber, k: u16) -> u16
    ensures { result ≡ tables.input_word w.now b.0 k }
{
    if k < 4 { word(w, b, 3 + k) } else { 0 }
}

#[tactic(auto, unfolding(crate::specs::SetTables::input_stored))]
pub fn set_target_input(w: &mut [u16; WORDS], b: BundleNumber, k: u16, v: u16)
    ensures { w.new ≡ tables.input_stored w.old b.0 k v }
{
    if k < 4 {
        set_word(w, b, 3 + k, v);
    }
}

// Target, count and condition; the inputs are set one by one.
pub fn set_bundle(w: &mut [u16; WORDS], b: BundleNumber, t: u16, n: IncomingEdgeCount, c: u16)
    ensures { w.new ≡ sections.stored_all w.old sections.bundles (rows.bundle_row_at b.0)
        (t ∷ totals.edges_word n.0 ∷ c ∷ []) }
{
    let xs = [t, n.to_word(), c];
    put_all(w, BUNDLES, ROW * usize::from(b.0), &xs);
}

// All four of its inputs.
pub fn set_target_inputs(w: &mut [u16; WORDS], b: BundleNumber, vs: &[u16; 4])
    ensures { w.new ≡ sections.stored_all w.old sections.bundles (rows.bundle_input_at b.0 0)
        vs.now }
{
    put_all(w, BUNDLES, ROW * usize::from(b.0) + 3, vs);
}

pub fn copy_bundle(w: &mut [u16; WORDS], to: BundleNumber, from: BundleNumber)
    ensures { w.new ≡ sections.stored_all w.old sections.bundles (rows.bundle_row_at to.0)
        (tables.bundle_words w.old from.0) }
{
    let xs = [0, 1, 2, 3, 4, 5, 6].map(|i| word(w, from, i));
    put_all(w, BUNDLES, ROW * usize::from(to.0), &xs);
}

// The bundle to a target among n from `start` on.
pub fn find_by_target(w: &[u16; WORDS], start: BundleNumber, n: u16, t: u16) -> Option<BundleNumber>
    ensures number { tables.number_of result ≡ tables.find_by w.now start.0 t n 0 }
    ensures some { tables.Numbered result }
{
    for i in 0..n {
        let b = bundle_at(start, i);
        if target(w, b) == t {
            return numbered(b);
        }
    }
    None
}

// Bundle b leaves its set by swap: the last takes its place.
fn swap_remove(w: &mut [u16; WORDS], r: u16, b: BundleNumber)
    ensures { w.new ≡ tables.swap_removed w.old r b.0 }
{
    let n = set_length(w, r);
    if n == 0 {
        return;
    }
    let last = bundle_at(set_start(w, r), n - 1);
    copy_bundle(w, b, last);
    put_set_length(w, r, n - 1);
}

// The bundle to a target leaves region r's set. It is bundle b: `find_by_target` found it before.
pub fn split_out_target(w: &mut [u16; WORDS], r: u16, b: BundleNumber)
    ensures { w.new ≡ tables.swap_removed w.old r b.0 }
{
    swap_remove(w, r, b);
}

// The bundles behind bundle i of n each move one up.
fn shift(w: &mut [u16; WORDS], start: BundleNumber, i: u16, n: u16)
    requires { 0 < n }
    ensures { w.new ≡ tables.shifted w.old start.0 i (n - 1 - i) }
{
    for j in i..n - 1 {
        copy_bundle(w, bundle_at(start, j), bundle_at(start, j + 1));
    }
}

// Bundle i leaves its set, the others keep their order.
pub fn shift_remove(w: &mut [u16; WORDS], r: u16, i: u16)
    ensures { w.new ≡ tables.shift_removed w.old r i }
{
    let n = set_length(w, r);
    if n == 0 {
        return;
    }
    let start = set_start(w, r);
    shift(w, start, i, n);
    put_set_length(w, r, n - 1);
}
