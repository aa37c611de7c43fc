// Counts of edges. Wherever edges are added, it is by this addition.
ghost use Rattle.std.specs.Prelude.{◌≡◌, ◌+◌, ◌≤◌, min};
ghost use Rattle.state_words.specs.Totals as totals;

// A number of edges. It counts edges only and is never an index.
#[derive(Clone, Copy, PartialEq, Eq)]
pub struct IncomingEdgeCount(pub u32);

pub const ONE: IncomingEdgeCount = IncomingEdgeCount(1);

impl IncomingEdgeCount {
    pub fn zero() -> Self
        ensures { result.0 ≡ 0 }
    {
        IncomingEdgeCount(0)
    }

    // A sum beyond 32 bits is the largest number.
    pub fn plus(self, other: IncomingEdgeCount) -> Self
        ensures { result.0 ≡ min (self.0 + other.0) 4294967295 }
    {
        IncomingEdgeCount(self.0.saturating_add(other.0))
    }

    // As the state keeps it, in a word of 16 bits: a count beyond is the largest word.
    pub fn to_word(self) -> u16
        ensures { result ≡ totals.edges_word self.0 }
    {
        self.0.min(65535) as u16
    }
}

impl From<u16> for IncomingEdgeCount {
    fn from(n: u16) -> Self
        ensures { (result.0 ≡ n) × (result.0 ≤ 65535) }
    {
        IncomingEdgeCount(u32::from(n))
    }
}
