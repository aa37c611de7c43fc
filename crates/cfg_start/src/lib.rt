// The nesting state before the first claim: nothing begun, nothing rewritten, blocks counted.
#![tactic(auto)]

ghost use Rattle.std.specs.Prelude.{◌≡◌};
ghost use Rattle.record.specs.Stands.{OfRecord};
ghost use Rattle.cfg_start.specs.InitialState as words;

use state_nodes::rewrites::set_no_rewrites;
use state_regions::regions::{RegionState, set_region_state};
use state_sets::sets::{SPARE, put_set_start, slot};
use state_words::defined::{RETURNED, set_first_totals, set_head};
use store::WORDS;

// Of the record's n regions.
fn start_kinds(w: &mut [u16; WORDS], n: u16)
    ensures { w.new ≡ words.nothing_begun n w.old }
{
    for r in 0..n {
        set_region_state(w, r, RegionState::NotBegun);
    }
}

// Of the record's n regions, and the spare one.
fn start_slots(w: &mut [u16; WORDS], n: u16)
    ensures { w.new ≡ words.slots_placed n w.old }
{
    for a in 0..n {
        put_set_start(w, a, slot(a));
    }
    put_set_start(w, SPARE, slot(SPARE));
}

// Regions, nodes, conditions, outputs, cells, of which cell 0 is none, attempts, and twice. Nodes are numbered blocks first.
fn start_totals(w: &mut [u16; WORDS], n: u16)
    ensures { OfRecord w.old (λ g. w.new ≡ words.counted g n w.old) }
{
    // A record never has as many blocks as a word can say.
    let blocks = fields::blocks_before(w, n).min(65535);
    set_first_totals(w, n, blocks as u16);
}

// How many values a Return has, and their types.
fn start_returned(w: &mut [u16; WORDS])
    ensures { OfRecord w.old (λ g. w.new ≡ words.returned g w.old) }
{
    let q = fields::first_return(w);
    let n = fields::value_count(w, q);
    // A Return never has more than four values.
    for k in 0..n.min(4) {
        let ty = fields::return_type(w, q, k);
        set_head(w, RETURNED + 1 + usize::from(k), ty);
    }
    set_head(w, RETURNED, n);
}

// Nothing else is set: no answer depends on what else the words hold.
pub fn initial_state(w: &mut [u16; WORDS])
    ensures { OfRecord w.old (λ g. w.new ≡ words.started g w.old) }
{
    let n = fields::region_count(w);
    set_no_rewrites(w);
    start_kinds(w, n);
    start_slots(w, n);
    start_totals(w, n);
    start_returned(w);
}
