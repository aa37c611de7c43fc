// How the inputs of each region are rewritten, the Rust's region_input_rewrites: none, replaced, or renumbered or replaced. Of four
// values for a region, a marked one in a renumbering is the new number of an input that stays. The first entry of a region wins.
ghost use Rattle.std.specs.Prelude.{◌≡◌, ◌<◌};
ghost use Rattle.nesting.specs.Nesting as limits;
ghost use Rattle.state_words.specs.Sections as sections;
ghost use Rattle.state_nodes.specs.NodeTables as tables;
ghost use Rattle.state_nodes.specs.RewriteKinds as kinds;
ghost use Rattle.state_words.specs.Rows as rows;

use state_words::defined::MOST_REGIONS;
use state_words::sections::{REWRITES, get, put, put_all};
use store::WORDS;

// An entry has five words.
const ROW: usize = 5;

// How a region's inputs are rewritten. A lent word may hold any number: one that is no kind's stays that number.
#[derive(Clone, Copy, PartialEq, Eq)]
pub enum RewriteKind {
    NotRewritten,
    ReplaceWith,
    RenumberOrReplaceWith,
    Unknown(u16),
}

impl From<u16> for RewriteKind {
    fn from(word: u16) -> Self
        ensures { result ≡ kinds.rewrite_kind_of word }
    {
        match word {
            0 => RewriteKind::NotRewritten,
            1 => RewriteKind::ReplaceWith,
            2 => RewriteKind::RenumberOrReplaceWith,
            _ => RewriteKind::Unknown(word),
        }
    }
}

impl From<RewriteKind> for u16 {
    fn from(kind: RewriteKind) -> u16
        ensures { result ≡ kinds.rewrite_kind_word kind }
    {
        match kind {
            RewriteKind::NotRewritten => 0,
            RewriteKind::ReplaceWith => 1,
            RewriteKind::RenumberOrReplaceWith => 2,
            RewriteKind::Unknown(word) => word,
        }
    }
}

// Where it is said how many entries are set. The others are none, whatever stands there: nothing of them was ever written.
const ENTRIES: usize = 640;

fn entries(w: &[u16; WORDS]) -> u16
    ensures { result ≡ tables.entries w.now }
{
    get(w, REWRITES, ENTRIES)
}

#[tactic(auto, unfolding(crate::specs::NodeTables::entry_kind))]
pub fn rewrite_kind(w: &[u16; WORDS], r: u16) -> RewriteKind
    ensures { result ≡ kinds.rewrite_kind_of (tables.rewrite_kind w.now r) }
{
    if r < entries(w) {
        RewriteKind::from(get(w, REWRITES, ROW * usize::from(r)))
    } else {
        RewriteKind::NotRewritten
    }
}

pub fn rewrite_value(w: &[u16; WORDS], r: u16, k: u16) -> u16
    ensures { result ≡ rows.rewrite_value w.now r k }
{
    get(w, REWRITES, ROW * usize::from(r) + 1 + usize::from(k))
}

pub fn set_no_rewrites(w: &mut [u16; WORDS])
    ensures { w.new ≡ sections.stored w.old sections.rewrites rows.entries_at 0 }
{
    put(w, REWRITES, ENTRIES, 0);
}

// Entries are set up to region r's: those between, to none.
fn reach(w: &mut [u16; WORDS], r: u16)
    requires { r < limits.most_regions }
    ensures { w.new ≡ tables.reached w.old r }
{
    let set = entries(w);
    if set <= r {
        let none = u16::from(RewriteKind::NotRewritten);
        for q in set..r {
            put(w, REWRITES, ROW * usize::from(q), none);
        }
        put(w, REWRITES, ENTRIES, r + 1);
    }
}

#[tactic(auto, unfolding(crate::specs::NodeTables::inserted))]
pub fn insert_rewrites(w: &mut [u16; WORDS], r: u16, kind: RewriteKind, vs: &[u16; 4])
    ensures { w.new ≡ tables.inserted w.old r (kinds.rewrite_kind_word kind) vs.now }
{
    if r < MOST_REGIONS && rewrite_kind(w, r) == RewriteKind::NotRewritten {
        reach(w, r);
        let at = ROW * usize::from(r);
        put(w, REWRITES, at, u16::from(kind));
        put_all(w, REWRITES, at + 1, vs);
    }
}
