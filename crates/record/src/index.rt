// The index of a record's regions: a row of words for each, behind the longest record.
ghost use Rattle.std.specs.Prelude.{◌+◌, ◌≤◌, ◌<◌, get_or};
ghost use Rattle.store.specs.Layout.{row_words, index_at, index_end};
ghost use Rattle.record.specs.Index.{Row, row_of};

use crate::regions::RegionPlaces;
use store::WORDS;
use store::layout::{BLOCK_PLACES, EXITS, LIMIT, RECORD_END, ROW, START};

// Not by `copy_from_slice`, which compares addresses: the boards' code is made from a module in which no address is a number.
fn store_blocks(w: &mut [u16; WORDS], at: usize, places: [u16; 8])
    requires { at + 8 ≤ index_end }
    ensures { Row w.old w.new at 8 (λ k. get_or places k 0) }
{
    for b in 0..8 {
        w[at + b] = places[b];
    }
}

// The places of region r, which begins at start.
pub fn put_places(w: &mut [u16; WORDS], r: u16, start: u16, x: RegionPlaces)
    requires { r < 32 }
    ensures { Row w.old w.new (index_at r) row_words (row_of start x) }
{
    let at = RECORD_END + ROW * r as usize;
    w[at + START] = start;
    w[at + LIMIT] = x.limit;
    w[at + EXITS] = x.exits;
    store_blocks(w, at + BLOCK_PLACES, x.blocks);
}
