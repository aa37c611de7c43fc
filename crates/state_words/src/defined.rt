// Totals of all that was ever defined, each with document 01's limit: the first beyond is refused with 9. Attempts and twice.
ghost use Rattle.std.specs.Prelude.{◌≡◌, [], ◌∷◌, ◌+◌, ◌≤◌};
ghost use Rattle.nesting.specs.Nesting as limits;
ghost use Rattle.state_words.specs.Sections as sections;
ghost use Rattle.state_words.specs.Totals as totals;
ghost use Rattle.state_words.specs.Rows as rows;
ghost use Rattle.store.specs.declared.refusals.Refusal.TheVariants as refusal;

use crate::sections::{HEAD, get, put, put_all};
use store::{Refusal, WORDS};

pub const REGIONS: usize = 0;

pub const NODES: usize = 1;

pub const MERGES: usize = 2;

pub const OUTPUT_TOTAL: usize = 3;

pub const CELL_TOTAL: usize = 4;

pub const ATTEMPTS: usize = 5;

pub const TWICE: usize = 6;

// How many cases the select under way has.
pub const CASE_TOTAL: usize = 7;

// How many values a Return has, and their four types.
pub const RETURNED: usize = 8;

// Document 01's limits: how many regions, nodes, lazy condition records and node outputs there can be.
pub const MOST_REGIONS: u16 = 128;

pub const MOST_NODES: u16 = 512;

pub const MOST_MERGES: u16 = 512;

pub const MOST_OUTPUTS: u16 = 512;

// A table is full: refusal 9.
#[derive(Clone, Copy, PartialEq, Eq, Debug)]
pub struct TooMany;

impl From<TooMany> for Refusal {
    ghost from_gives = { λ _ why. why ≡ refusal.TooMany };

    fn from(_full: TooMany) -> Refusal {
        Refusal::TooMany
    }
}

pub fn head(w: &[u16; WORDS], i: usize) -> u16
    requires { i ≤ 65535 }
    ensures { result ≡ sections.word w.now sections.head i }
{
    get(w, HEAD, i)
}

pub fn set_head(w: &mut [u16; WORDS], i: usize, x: u16)
    requires { i ≤ 65535 }
    ensures { w.new ≡ sections.stored w.old sections.head i x }
{
    put(w, HEAD, i, x);
}

// Type k of a Return's values.
pub fn returned_type(w: &[u16; WORDS], k: u16) -> u16
    ensures { result ≡ sections.word w.now sections.head (rows.types_at + k) }
{
    get(w, HEAD, RETURNED + 1 + (k as usize))
}

// Before the first claim: so many regions and nodes, no conditions and no outputs, cell 0, which is none, no attempts, and no note.
pub fn set_first_totals(w: &mut [u16; WORDS], regions: u16, nodes: u16)
    ensures { w.new ≡ sections.stored_all w.old sections.head rows.regions_at
        (regions ∷ nodes ∷ 0 ∷ 0 ∷ 1 ∷ 0 ∷ 0 ∷ []) }
{
    let xs = [regions, nodes, 0, 0, 1, 0, 0];
    put_all(w, HEAD, REGIONS, &xs);
}

// One more of what the head counts at i, within its limit.
fn define(w: &mut [u16; WORDS], i: usize, limit: u16) -> Result<u16, TooMany>
    requires { i ≤ 65535 }
    ensures { totals.Defines i limit w.old w.new result }
{
    let n = head(w, i);
    if n < limit {
        set_head(w, i, n + 1);
        return Ok(n);
    }
    Err(TooMany)
}

pub fn define_node(w: &mut [u16; WORDS]) -> Result<u16, TooMany>
    ensures { totals.Defines rows.nodes_at limits.most_nodes w.old w.new result }
{
    define(w, NODES, MOST_NODES)
}

pub fn define_region(w: &mut [u16; WORDS]) -> Result<u16, TooMany>
    ensures { totals.Defines rows.regions_at limits.most_regions w.old w.new result }
{
    define(w, REGIONS, MOST_REGIONS)
}

pub fn count_attempt(w: &mut [u16; WORDS])
    ensures { w.new ≡ totals.attempted w.old }
{
    let n = head(w, ATTEMPTS);
    if n < 65535 {
        set_head(w, ATTEMPTS, n + 1);
        return;
    }
}

// The note that a marked value was met whose second look-up would change it.
pub fn note_twice(w: &mut [u16; WORDS])
    ensures { w.new ≡ sections.stored w.old sections.head rows.twice_at 1 }
{
    set_head(w, TWICE, 1);
}
