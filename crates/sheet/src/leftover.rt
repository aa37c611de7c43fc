// What a leftover gives: the entry and the unclaimed Ready regions, and the sets of all of them by ascending region.
ghost use Rattle.sheet_nodes.specs.Regions as regions;

use crate::pieces::put_piece;
use sheet_defers::lines::put_set;
use sheet_words::place::Place;
use state_regions::regions::{RegionState, region_state};
use store::WORDS;

fn put_if_ready(w: &[u16; WORDS], out: &mut [u32], at: Place, r: u16) -> Place
    ensures { regions.PutsReady w.now r out.old at out.new result }
{
    if let RegionState::Ready = region_state(w, r) {
        put_piece(w, out, at, r)
    } else {
        at
    }
}

// Its loop and that of put_sets stay two: the clause of a closure that puts words would be longer than the loop that it saves.
fn put_unclaimed(w: &[u16; WORDS], out: &mut [u32], at: Place) -> Place
    ensures { regions.PutsUnclaimed w.now out.old at out.new result }
{
    let mut e = at;
    for r in (0..fields::region_count(w)).rev() {
        e = put_if_ready(w, out, e, r);
    }
    e
}

// The set of region r, if the leftover gives it.
fn put_set_if_left(w: &[u16; WORDS], out: &mut [u32], at: Place, r: u16) -> Place
    ensures { regions.PutsGivenSet w.now r out.old at out.new result }
{
    if r == fields::entry(w) || matches!(region_state(w, r), RegionState::Ready) {
        put_set(w, out, at, r)
    } else {
        at
    }
}

fn put_sets(w: &[u16; WORDS], out: &mut [u32], at: Place) -> Place
    ensures { regions.PutsSets w.now out.old at out.new result }
{
    let mut e = at;
    for r in (0..fields::region_count(w)).rev() {
        e = put_set_if_left(w, out, e, r);
    }
    e
}

pub fn put_leftover(w: &[u16; WORDS], out: &mut [u32], at: Place) -> Place
    ensures { regions.PutsLeftover w.now out.old at out.new result }
{
    let sets = put_sets(w, out, at);
    let unclaimed = put_unclaimed(w, out, sets);
    put_piece(w, out, unclaimed, fields::entry(w))
}
