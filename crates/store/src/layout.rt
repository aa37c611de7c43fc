// The lent words: the record's in front, then the index of its regions; what stands behind them is the caller's.
ghost use Rattle.std.specs.Prelude.{◌≡◌, get_or};

// How many words are lent: as many as the sections of nesting have, made even. This number stands in this line alone.
pub const WORDS: usize = 26942;

// A place that is none of theirs: a number and no None, for a place stands in the index as a word.
pub const BEYOND: u16 = 65535;

// Where the longest record ends, 16 blocks of 253 words, and the index begins.
pub const RECORD_END: usize = 4048;

// The words of the index for one region: where the region begins, where its turn limit and its exits stand, and each of its blocks.
pub const ROW: usize = 11;

// Behind the rows of 32 regions.
pub const INDEX_END: usize = RECORD_END + 32 * ROW;

pub const START: usize = 0;

pub const LIMIT: usize = 1;

pub const EXITS: usize = 2;

pub const BLOCK_PLACES: usize = 3;

// The word at a place; beyond the lent words stands 0.
pub fn word_at(w: &[u16; WORDS], p: usize) -> u16
    ensures { result ≡ get_or w.now p 0 }
{
    if p < WORDS { w[p] } else { 0 }
}
