// Incoming edge counts, of edges from regions that the entry reaches: the Rust's incoming_edge_counts_including_loop_exits. Their arrays
// have fixed lengths: there is no heap.
#![tactic(auto)]

ghost use Rattle.std.specs.Prelude.{◌≡◌, true, List, ◌∷◌, ◌++◌, ℕ, suc, ◌+◌, ◌≤◌, ◌<◌, min, length, get_or};
ghost use Rattle.meaning.specs.Graph.{region, edges_of, targets_of};
ghost use Rattle.meaning.specs.Lists.{total};
ghost use Rattle.format.specs.Valid.{Valid};
ghost use Rattle.nesting.specs.Nesting.{incoming_edge_counts, exit_targets};
ghost use Rattle.record.specs.Stands.{OfRecord};
ghost use Rattle.fields.specs.ByNumber.{before};
ghost use Rattle.cfg_incoming.specs.Counted.{AtMost, OneMore, GainsAll, Grows};
ghost use Rattle.cfg_incoming.specs.Visits.{Marks, Room, Visiting};

use state_words::edges::{IncomingEdgeCount, ONE};
use store::WORDS;

pub fn count_of(counts: &[u32; 32], r: u16) -> IncomingEdgeCount
    ensures { result.0 ≡ get_or counts.now r 0 }
{
    // Not by `get`: the boards' code is made from the module for x86-64, and an Option of a reference lies otherwise where pointers have
    // 4 bytes.
    if r < 32 {
        IncomingEdgeCount(counts[usize::from(r)])
    } else {
        IncomingEdgeCount(0)
    }
}

fn add_one(counts: &mut [u32; 32], r: u16)
    requires { AtMost counts.old 4294967294 }
    ensures { OneMore counts.old counts.new r }
{
    if r < 32 {
        let i = usize::from(r);
        counts[i] = IncomingEdgeCount(counts[i]).plus(ONE).0;
    }
}

// One more for each of the n numbers of a list. A number that stands there twice counts twice.
fn count_all<F: Fn(u16) -> u16>(counts: &mut [u32; 32], n: u16, item: F)
    requires callable { F.IsAlwaysCallable item }
    requires room { AtMost counts.old 4294901760 }
    ensures grows { Grows counts.old counts.new 65535 }
    ensures counted { (ts : List ℕ) → n ≡ length ts
        → ((j x : ℕ) → j < n → F.post item j x → x ≡ get_or ts j 0)
        → GainsAll counts.old counts.new ts }
{
    for j in 0..n {
        add_one(counts, item(j));
    }
}

fn count_targets(w: &[u16; WORDS], r: u16, counts: &mut [u32; 32])
    requires { AtMost counts.old 4294901760 }
    ensures grows { Grows counts.old counts.new 65535 }
    ensures of_record { OfRecord w.now (λ g. GainsAll counts.old counts.new (targets_of g r)) }
{
    count_all(
        counts,
        fields::target_count(w, r),
        |j| fields::target(w, r, j),
    );
}

fn count_exits(w: &[u16; WORDS], r: u16, counts: &mut [u32; 32])
    requires { AtMost counts.old 4294901760 }
    ensures grows { Grows counts.old counts.new 65535 }
    ensures of_record { OfRecord w.now (λ g. GainsAll counts.old counts.new (exit_targets g r)) }
{
    count_all(
        counts,
        fields::exit_count(w, r),
        |k| fields::exit_target(w, r, k),
    );
}

// One visit for the entry and one for each edge.
fn visit_count(w: &[u16; WORDS]) -> u32
    ensures { OfRecord w.now (λ g. result ≡ suc (total (λ x. length (edges_of x.terminator)) g.regions)) }
{
    let mut sum: u32 = 1;
    for r in 0..fields::region_count(w) {
        sum += u32::from(fields::target_count(w, r));
    }
    sum
}

// Regions to visit, the next one last. The first target is visited first.
fn push_targets(w: &[u16; WORDS], r: u16, todo: &mut [u16; 264], depth: usize) -> usize
    requires { depth ≤ 256 }
    ensures upper_bound { result ≤ depth + 8 }
    ensures of_record { OfRecord w.now (λ g. length (edges_of (region g r).terminator) ≤ 8
        → before todo.new result ≡ targets_of g r ++ before todo.old depth) }
{
    // A region of a valid record has no more than eight.
    let n = fields::target_count(w, r).min(8);
    let mut at = depth;
    for j in (0..n).rev() {
        todo[at] = fields::target(w, r, j);
        at += 1;
    }
    at
}

// Marks a region that is not marked yet; a number beyond the regions never is.
fn mark(seen: &mut [bool; 32], r: u16) -> bool
    ensures { Marks seen.old seen.new r result }
{
    let fresh = r < 32 && !seen[usize::from(r)];
    if fresh {
        seen[usize::from(r)] = true;
    }
    fresh
}

// One visit, of region r, which was taken off the stack: the new depth.
fn visit(
    w: &[u16; WORDS],
    r: u16,
    seen: &mut [bool; 32],
    counts: &mut [u32; 32],
    todo: &mut [u16; 264],
    depth: usize,
) -> usize
    requires { Room seen.old counts.old (suc depth) }
    ensures room { Room seen.new counts.new result }
    ensures of_record { OfRecord w.now (λ g. Valid g → (fuel : ℕ)
        → Visiting g (suc fuel) (r ∷ before todo.old depth) seen.old counts.old
        → Visiting g fuel (before todo.new result) seen.new counts.new) }
{
    if mark(seen, r) {
        count_targets(w, r, counts);
        count_exits(w, r, counts);
        push_targets(w, r, todo, depth)
    } else {
        depth
    }
}

// Edges to each region, from the regions that the entry reaches; one more for the entry.
pub fn incoming_edge_counts(w: &[u16; WORDS]) -> [u32; 32]
    ensures { OfRecord w.now (λ g. Valid g → (r : ℕ) → r < length g.regions
        → get_or result r 0 ≡ get_or (incoming_edge_counts g) r 0) }
{
    let mut counts = [0u32; 32];
    let mut seen = [false; 32];
    let mut todo = [0u16; 264];
    let entry = fields::entry(w);
    add_one(&mut counts, entry);
    todo[0] = entry;
    let mut depth: usize = 1;
    for _turn in 0..visit_count(w) {
        if depth == 0 {
            return counts;
        }
        depth -= 1;
        let r = todo[depth];
        depth = visit(w, r, &mut seen, &mut counts, &mut todo, depth);
    }
    counts
}
