// The cases of the select under way, the Rust's Result<ClaimedRegion, DeferredEdgeBundleSet>: ten words each.
ghost use Rattle.std.specs.Prelude.{◌≡◌, ◌≤◌};
ghost use Rattle.state_words.specs.Sections as sections;
ghost use Rattle.state_regions.specs.RegionTables as tables;
ghost use Rattle.state_words.specs.Rows as rows;

use state_words::bundle_numbers::BundleNumber;
use state_words::defined::{CASE_TOTAL, head, set_head};
use state_words::handles::Handle;
use state_words::sections::{CASES, get, put, put_all};
use store::WORDS;

// A case has ten words.
const ROW: usize = 10;

// What a case is: nothing is deferred; its own edge; a claimed region; what is left of the parent's set. A lent word may hold any
// number: one that is no kind's stays that number.
#[derive(Clone, Copy, PartialEq, Eq)]
pub enum CaseKind {
    NothingDeferred,
    OwnEdge,
    ClaimedRegion,
    Others,
    Unknown(u16),
}

impl From<u16> for CaseKind {
    fn from(word: u16) -> Self
        ensures { result ≡ tables.case_kind_of word }
    {
        match word {
            0 => CaseKind::NothingDeferred,
            1 => CaseKind::OwnEdge,
            2 => CaseKind::ClaimedRegion,
            3 => CaseKind::Others,
            _ => CaseKind::Unknown(word),
        }
    }
}

impl From<CaseKind> for u16 {
    fn from(kind: CaseKind) -> u16
        ensures { result ≡ tables.case_kind_word kind }
    {
        match kind {
            CaseKind::NothingDeferred => 0,
            CaseKind::OwnEdge => 1,
            CaseKind::ClaimedRegion => 2,
            CaseKind::Others => 3,
            CaseKind::Unknown(word) => word,
        }
    }
}

// A case: its kind; of a claimed region its number, structured body and children; where its set starts, and how many bundles it has.
#[derive(Clone, Copy)]
pub struct Case {
    pub kind: CaseKind,
    pub origin: u16,
    pub body: u16,
    pub children: Handle,
    pub start: BundleNumber,
    pub length: u16,
}

fn word(w: &[u16; WORDS], j: u16, i: usize) -> u16
    requires { i ≤ 65600 }
    ensures { result ≡ rows.case_word w.now j i }
{
    get(w, CASES, ROW * usize::from(j) + i)
}

fn set_word(w: &mut [u16; WORDS], j: u16, i: usize, x: u16)
    requires { i ≤ 65600 }
    ensures { w.new ≡ sections.stored w.old sections.cases (rows.case_word_at j i) x }
{
    put(w, CASES, ROW * usize::from(j) + i, x);
}

#[tactic(auto, unfolding(crate::specs::RegionTables::case_total))]
pub fn case_count(w: &[u16; WORDS]) -> u16
    ensures { result ≡ tables.case_total w.now }
{
    head(w, CASE_TOTAL).min(8)
}

pub fn set_case_count(w: &mut [u16; WORDS], n: u16)
    ensures { w.new ≡ sections.stored w.old sections.head rows.cases_at n }
{
    set_head(w, CASE_TOTAL, n);
}

pub fn case_kind(w: &[u16; WORDS], j: u16) -> CaseKind
    ensures { result ≡ tables.case_kind_of (rows.case_kind w.now j) }
{
    CaseKind::from(word(w, j, 0))
}

pub fn case_origin(w: &[u16; WORDS], j: u16) -> u16
    ensures { result ≡ rows.case_origin w.now j }
{
    word(w, j, 1)
}

// The region of the case: of a claimed one its structured body, of another the region that is defined for it.
pub fn case_body(w: &[u16; WORDS], j: u16) -> u16
    ensures { result ≡ rows.case_body w.now j }
{
    word(w, j, 2)
}

pub fn set_case_body(w: &mut [u16; WORDS], j: u16, r: u16)
    ensures { w.new ≡ sections.stored w.old sections.cases (rows.case_body_at j) r }
{
    set_word(w, j, 2, r);
}

pub fn case_children(w: &[u16; WORDS], j: u16) -> Handle
    ensures { result.0 ≡ rows.case_children w.now j }
{
    Handle(word(w, j, 3))
}

pub fn case_start(w: &[u16; WORDS], j: u16) -> BundleNumber
    ensures { result.0 ≡ rows.case_set_start w.now j }
{
    BundleNumber(word(w, j, 4))
}

pub fn case_length(w: &[u16; WORDS], j: u16) -> u16
    ensures { result ≡ rows.case_set_length w.now j }
{
    word(w, j, 5)
}

// What a claimed region is given: its structured body's inputs.
pub fn case_input(w: &[u16; WORDS], j: u16, k: u16) -> u16
    ensures { result ≡ rows.case_input w.now j k }
{
    word(w, j, 6 + usize::from(k))
}

pub fn set_case_input(w: &mut [u16; WORDS], j: u16, k: u16, v: u16)
    ensures { w.new ≡ sections.stored w.old sections.cases (rows.case_input_at j k) v }
{
    set_word(w, j, 6 + usize::from(k), v);
}

pub fn set_case(w: &mut [u16; WORDS], j: u16, x: Case)
    ensures { w.new ≡ sections.stored_all w.old sections.cases (rows.case_row_at j)
        (tables.case_words x) }
{
    let xs = [
        u16::from(x.kind),
        x.origin,
        x.body,
        x.children.0,
        x.start.0,
        x.length,
    ];
    put_all(w, CASES, ROW * usize::from(j), &xs);
}

// All four of its inputs.
pub fn set_case_inputs(w: &mut [u16; WORDS], j: u16, vs: &[u16; 4])
    ensures { w.new ≡ sections.stored_all w.old sections.cases (rows.case_word_at j 6) vs.now }
{
    put_all(w, CASES, ROW * usize::from(j) + 6, vs);
}

pub fn case_at(w: &[u16; WORDS], j: u16) -> Case
    ensures { result ≡ tables.case_row w.now j }
{
    Case {
        kind: case_kind(w, j),
        origin: case_origin(w, j),
        body: case_body(w, j),
        children: case_children(w, j),
        start: case_start(w, j),
        length: case_length(w, j),
    }
}
