// The inputs of a loop's header: what the back edge passes, which are kept, and how each is rewritten.
ghost use Rattle.std.specs.Prelude.{◌≡◌, ◌≤◌};
ghost use Rattle.cfg_loops.specs.Inputs as words;

use cfg_lookups::look_up::look_up_noting;
use state_nodes::cells::{Cell, add_cell};
use state_sets::sets::target_input;
use state_words::bundle_numbers::BundleNumber;
use state_words::handles::{EMPTY, Handle};
use state_words::values::{held, input};
use store::WORDS;

// The definition's LoopInputs, so far: how many are kept, and their cells; and the word of the last one's entry.
#[derive(Clone, Copy)]
pub struct LoopInputs {
    pub count: u16,
    pub cells: Handle,
    pub entry: u16,
}

pub fn backedge_inputs(w: &[u16; WORDS], p: BundleNumber) -> [u16; 4]
    ensures { result ≡ words.backedge_inputs w.now p.0 }
{
    [
        target_input(w, p, 0),
        target_input(w, p, 1),
        target_input(w, p, 2),
        target_input(w, p, 3),
    ]
}

// Value k of n, looked up.
fn rewrite_value(w: &mut [u16; WORDS], n: u16, k: u16, v: u16) -> u16
    ensures { words.RewritesValue n k v w.old w.new result }
{
    if k < n { look_up_noting(w, v) } else { v }
}

// The first n values looked up, in turn.
pub fn rewrite_values(w: &mut [u16; WORDS], vs: &mut [u16; 4], n: u16)
    ensures { words.RewritesValues n 4 w.old vs.old w.new vs.new }
{
    for k in 0..4 {
        let i = usize::from(k);
        vs[i] = rewrite_value(w, n, k, vs[i]);
    }
}

fn keep_input(
    w: &mut [u16; WORDS],
    r: u16,
    wrapper: u16,
    k: u16,
    v: u16,
    x: LoopInputs,
) -> LoopInputs
    requires { x.count ≤ 4 }
    ensures { words.KeepsInput r wrapper k v x w.old w.new result }
{
    let cell = Cell::Kept {
        before: x.cells,
        input: k,
        wrapper,
        back: v,
    };
    LoopInputs {
        count: x.count + 1,
        cells: add_cell(w, cell),
        entry: held(r, x.count),
    }
}

// An input that is passed back unchanged is lifted out of the loop; another is kept, and renumbered.
fn take_input(
    w: &mut [u16; WORDS],
    r: u16,
    wrapper: u16,
    n: u16,
    k: u16,
    v: u16,
    x: LoopInputs,
) -> LoopInputs
    requires { x.count ≤ 4 }
    ensures { words.TakesInput r wrapper n k v x w.old w.new result }
{
    if n <= k {
        LoopInputs {
            entry: held(r, k),
            ..x
        }
    } else if v == input(r, k) {
        LoopInputs {
            entry: input(wrapper, k),
            ..x
        }
    } else {
        keep_input(w, r, wrapper, k, v, x)
    }
}

// The values become the words of the header's entry; the answer is the list of kept inputs.
pub fn take_inputs(w: &mut [u16; WORDS], r: u16, wrapper: u16, n: u16, vs: &mut [u16; 4]) -> Handle
    ensures { words.TakesInputs r wrapper n w.old vs.old w.new vs.new result.0 }
{
    let mut x = LoopInputs {
        count: 0,
        cells: EMPTY,
        entry: 0,
    };
    for k in 0..4 {
        let i = usize::from(k);
        x = take_input(w, r, wrapper, n, k, vs[i], x);
        vs[i] = x.entry;
    }
    x.cells
}
