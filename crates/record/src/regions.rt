// Regions and the head of a record. A region has at most eight blocks, and there is no heap.
ghost use Rattle.std.specs.Prelude.{◌≤◌};
ghost use Rattle.reading.specs.Answers.{ReadsWord, Reads};
ghost use Rattle.record.specs.Answers.{BlocksRead, CountedBlocks, EndingRead, RegionPlacesRead};
ghost use Rattle.record.specs.Readings.{after_count, head_count};

use reading::terminators::terminator;
use reading::values::block;
use reading::words::{Cursor, Fault, counted_types, counted_words, within, word};
use store::WORDS;

// The place of each of some blocks, and the cursor behind them.
#[derive(Clone, Copy)]
pub struct BlockPlaces {
    pub places: [u16; 8],
    pub behind: Cursor,
}

// The places within a region that the index keeps, and the cursor behind it.
#[derive(Clone, Copy)]
pub struct RegionPlaces {
    pub limit: u16,
    pub exits: u16,
    pub blocks: [u16; 8],
    pub behind: Cursor,
}

// n blocks. A loop of its own, since `many` keeps only the cursor, and here the place of each block is kept.
fn blocks(w: &[u16; WORDS], from: Cursor, n: u16) -> Result<BlockPlaces, Fault>
    requires { n ≤ 8 }
    ensures { BlocksRead n w.now from result }
{
    let mut places = [0u16; 8];
    let mut c = from;
    for i in 0..n {
        let e = block(w, c)?;
        places[i as usize] = c.at as u16;
        c = e;
    }
    Ok(BlockPlaces { places, behind: c })
}

fn counted_blocks(w: &[u16; WORDS], c: Cursor) -> Result<BlockPlaces, Fault>
    ensures { CountedBlocks w.now c result }
{
    let (n, e) = within(w, c, 0, 8)?;
    blocks(w, e, n)
}

// From the turn limit of a region on; its blocks stand at the places.
fn read_ending(w: &[u16; WORDS], c: Cursor, places: [u16; 8]) -> Result<RegionPlaces, Fault>
    ensures { EndingRead w.now c places result }
{
    let (_, p) = within(w, c, 1, 65535)?;
    let q = terminator(w, p)?;
    let e = counted_words(w, q, 0, 32)?;
    Ok(RegionPlaces {
        limit: c.at as u16,
        exits: q.at as u16,
        blocks: places,
        behind: e,
    })
}

pub fn read_region(w: &[u16; WORDS], c: Cursor) -> Result<RegionPlaces, Fault>
    ensures { RegionPlacesRead w.now c result }
{
    let p = counted_types(w, c, 4)?;
    let b = counted_blocks(w, p)?;
    read_ending(w, b.behind, b.places)
}

// Entry, test cost, and the types of the constants.
fn after_count(w: &[u16; WORDS], c: Cursor) -> Result<Cursor, Fault>
    ensures { Reads after_count w.now c result }
{
    let (_, p) = word(w, c)?;
    let (_, e) = word(w, p)?;
    counted_types(w, e, 64)
}

// The region count and the cursor at the first region.
pub fn read_head(w: &[u16; WORDS], c: Cursor) -> Result<(u16, Cursor), Fault>
    ensures { ReadsWord head_count w.now c result }
{
    let (n, p) = within(w, c, 1, 32)?;
    let e = after_count(w, p)?;
    Ok((n, e))
}
