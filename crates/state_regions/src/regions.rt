// The states of the record's regions, in fixed lists: kinds, back edge counts, where the deferred sets start and how many bundles they
// have, children, structured bodies. And what a level of the cycle holds across a claim: how each target was answered so far.
ghost use Rattle.std.specs.Prelude.{◌≡◌, ◌+◌, ◌*◌, ◌≤◌};
ghost use Rattle.state_words.specs.Sections as sections;
ghost use Rattle.state_regions.specs.RegionTables as tables;
ghost use Rattle.state_words.specs.Totals as totals;

use state_words::edges::IncomingEdgeCount;
use state_words::handles::Handle;
use state_words::sections::{BACKEDGES, BODIES, CHILDREN, KINDS, LEVELS, get, put};
use store::WORDS;

// A region has a word for each of eight targets.
const ROW: usize = 8;

// How far a region is. A lent word may hold any number: one that is no state's stays that number. Each enum of a lent word has such a
// pair of conversions, here and below: there are no macros.
#[derive(Clone, Copy, PartialEq, Eq)]
pub enum RegionState {
    NotBegun,
    InProgress,
    Ready,
    Claimed,
    Unknown(u16),
}

impl From<u16> for RegionState {
    fn from(word: u16) -> Self
        ensures { result ≡ tables.region_state_of word }
    {
        match word {
            0 => RegionState::NotBegun,
            1 => RegionState::InProgress,
            2 => RegionState::Ready,
            3 => RegionState::Claimed,
            _ => RegionState::Unknown(word),
        }
    }
}

impl From<RegionState> for u16 {
    fn from(state: RegionState) -> u16
        ensures { result ≡ tables.region_state_word state }
    {
        match state {
            RegionState::NotBegun => 0,
            RegionState::InProgress => 1,
            RegionState::Ready => 2,
            RegionState::Claimed => 3,
            RegionState::Unknown(word) => word,
        }
    }
}

pub fn region_state(w: &[u16; WORDS], r: u16) -> RegionState
    ensures { result ≡ tables.region_state_of (sections.word w.now sections.kinds r) }
{
    RegionState::from(get(w, KINDS, usize::from(r)))
}

pub fn set_region_state(w: &mut [u16; WORDS], r: u16, state: RegionState)
    ensures { w.new ≡ sections.stored w.old sections.kinds r (tables.region_state_word state) }
{
    put(w, KINDS, usize::from(r), u16::from(state));
}

pub fn backedge_count(w: &[u16; WORDS], r: u16) -> IncomingEdgeCount
    ensures { (result.0 ≡ sections.word w.now sections.backedges r) × (result.0 ≤ 65535) }
{
    IncomingEdgeCount::from(get(w, BACKEDGES, usize::from(r)))
}

pub fn set_backedge_count(w: &mut [u16; WORDS], r: u16, n: IncomingEdgeCount)
    ensures { w.new ≡ sections.stored w.old sections.backedges r (totals.edges_word n.0) }
{
    put(w, BACKEDGES, usize::from(r), n.to_word());
}

pub fn children(w: &[u16; WORDS], r: u16) -> Handle
    ensures { result.0 ≡ sections.word w.now sections.children r }
{
    Handle(get(w, CHILDREN, usize::from(r)))
}

pub fn set_children(w: &mut [u16; WORDS], r: u16, h: Handle)
    ensures { w.new ≡ sections.stored w.old sections.children r h.0 }
{
    put(w, CHILDREN, usize::from(r), h.0);
}

// Of a claimed region: itself, or the wrapper of its loop.
pub fn structured_body(w: &[u16; WORDS], r: u16) -> u16
    ensures { result ≡ sections.word w.now sections.bodies r }
{
    get(w, BODIES, usize::from(r))
}

pub fn set_structured_body(w: &mut [u16; WORDS], r: u16, body: u16)
    ensures { w.new ≡ sections.stored w.old sections.bodies r body }
{
    put(w, BODIES, usize::from(r), body);
}

// How region r's target at place j was answered: nothing of it is left, its edge is deferred, or it is claimed.
#[derive(Clone, Copy, PartialEq, Eq)]
pub enum TargetAnswer {
    Unreachable,
    Deferred,
    Claimed,
    Unknown(u16),
}

impl From<u16> for TargetAnswer {
    fn from(word: u16) -> Self
        ensures { result ≡ tables.target_answer_of word }
    {
        match word {
            0 => TargetAnswer::Unreachable,
            1 => TargetAnswer::Deferred,
            2 => TargetAnswer::Claimed,
            _ => TargetAnswer::Unknown(word),
        }
    }
}

impl From<TargetAnswer> for u16 {
    fn from(answer: TargetAnswer) -> u16
        ensures { result ≡ tables.target_answer_word answer }
    {
        match answer {
            TargetAnswer::Unreachable => 0,
            TargetAnswer::Deferred => 1,
            TargetAnswer::Claimed => 2,
            TargetAnswer::Unknown(word) => word,
        }
    }
}

#[tactic(auto, unfolding(crate::specs::RegionTables::target_answer))]
pub fn target_answer(w: &[u16; WORDS], r: u16, j: u16) -> TargetAnswer
    ensures { result ≡ tables.target_answer_of (tables.target_answer w.now r j) }
{
    if j < 8 {
        TargetAnswer::from(get(w, LEVELS, ROW * usize::from(r) + usize::from(j)))
    } else {
        TargetAnswer::Unreachable
    }
}

#[tactic(auto, unfolding(crate::specs::RegionTables::target_answer_stored))]
pub fn set_target_answer(w: &mut [u16; WORDS], r: u16, j: u16, x: TargetAnswer)
    ensures { w.new ≡ tables.target_answer_stored w.old r j (tables.target_answer_word x) }
{
    if j < 8 {
        let word = u16::from(x);
        put(w, LEVELS, ROW * usize::from(r) + usize::from(j), word);
    }
}
