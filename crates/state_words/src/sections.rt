// The sections of the lent words: where each begins and how many words it has. An index beyond a section reads 0 and writes nothing.
ghost use Rattle.std.specs.Prelude.{◌≡◌, ◌+◌, ◌≤◌, length};
ghost use Rattle.state_words.specs.Sections as sections;

use store::WORDS;
use store::layout::INDEX_END;

// Where a section begins, and how many words it has.
#[derive(Clone, Copy)]
pub struct Section {
    pub from: usize,
    pub words: usize,
}

// A word for each region of the record; a word for each of their slots and the spare one, which is as of a region 32.
const BY_REGION: usize = 32;

const BY_SLOT: usize = 33;

// Totals of all that was defined, attempts, twice, cases under way, what a Return has.
pub const HEAD: Section = Section {
    from: INDEX_END,
    words: 16,
};

pub const KINDS: Section = Section {
    from: INDEX_END + 16,
    words: BY_REGION,
};

pub const BACKEDGES: Section = Section {
    from: INDEX_END + 48,
    words: BY_REGION,
};

pub const SET_STARTS: Section = Section {
    from: INDEX_END + 80,
    words: BY_SLOT,
};

pub const SET_LENGTHS: Section = Section {
    from: INDEX_END + 113,
    words: BY_SLOT,
};

pub const CHILDREN: Section = Section {
    from: INDEX_END + 146,
    words: BY_REGION,
};

pub const BODIES: Section = Section {
    from: INDEX_END + 178,
    words: BY_REGION,
};

// What a level of the cycle holds across a claim: a word for each of eight targets of a region.
pub const LEVELS: Section = Section {
    from: INDEX_END + 210,
    words: 256,
};

// The cases of the select under way, ten words each.
pub const CASES: Section = Section {
    from: INDEX_END + 466,
    words: 80,
};

// A kind and four values for each region; behind them, how many of these entries are set.
pub const REWRITES: Section = Section {
    from: INDEX_END + 546,
    words: 641,
};

// Node, type and eight values for each output.
pub const OUTPUTS: Section = Section {
    from: INDEX_END + 1187,
    words: 5120,
};

// The cell of its select and eight parts for each lazy condition record, behind the four numbers that are no records.
pub const CONDITIONS: Section = Section {
    from: INDEX_END + 6307,
    words: 4644,
};

// Six words for each cell; cell 0 is none.
pub const CELLS: Section = Section {
    from: INDEX_END + 10951,
    words: 3912,
};

// Bundles of seven words: 33 slots of 33, and one for each case's own edge.
pub const BUNDLES: Section = Section {
    from: INDEX_END + 14863,
    words: 7679,
};

#[tactic(auto, using(crate::specs::laws::Stored::read_in, crate::specs::laws::Stored::read_beyond))]
pub fn get(w: &[u16; WORDS], section: Section, i: usize) -> u16
    requires { section.from + section.words ≤ sections.used }
    ensures { result ≡ sections.read_at section.from section.words w.now i }
{
    let from = section.from;
    if i < section.words { w[from + i] } else { 0 }
}

#[tactic(auto, using(crate::specs::laws::Stored::stored_in, crate::specs::laws::Stored::stored_beyond))]
pub fn put(w: &mut [u16; WORDS], section: Section, i: usize, x: u16)
    requires { section.from + section.words ≤ sections.used }
    ensures { w.new ≡ sections.stored_at section.from section.words w.old i x }
{
    let from = section.from;
    if i < section.words {
        w[from + i] = x;
    }
}

// Words from i on.
#[tactic(auto, using(crate::specs::laws::Stored::run_turn, crate::specs::laws::Stored::run_stop))]
pub fn put_all(w: &mut [u16; WORDS], section: Section, i: usize, xs: &[u16])
    requires { (section.from + section.words ≤ sections.used) × (i ≤ 1000000) × (length xs.now ≤ 8) }
    ensures { w.new ≡ sections.stored_all_at section.from section.words w.old i xs.now }
{
    for (j, x) in xs.iter().enumerate() {
        put(w, section, i + j, *x);
    }
}
