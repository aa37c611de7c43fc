// A value as a sheet shows it: looked up once more, three words.
ghost use Rattle.std.specs.Prelude.{◌≡◌, List, ℕ, ◌<◌, length, get_or};
ghost use Rattle.meaning.specs.Graph.{Value, no_value};
ghost use Rattle.nesting.specs.Nesting.{plain};
ghost use Rattle.state_shown.specs.Values.{value};
ghost use Rattle.sheet_words.specs.Outputs as words;
ghost use Rattle.sheet_words.specs.Parts as parts;
ghost use Rattle.sheet_words.specs.PutInFront.{Puts};

use crate::place::{Place, note, put_three, put_word};
use cfg_lookups::look_up::look_up;
use state_nodes::outputs::{output_count, output_node};
use state_words::values::parts_of;
use store::WORDS;

// The node of an output; 0 beyond those that were defined.
fn node_of(w: &[u16; WORDS], o: u16) -> u16
    ensures { result ≡ words.node_of w.now o }
{
    if o < output_count(w) {
        output_node(w, o)
    } else {
        0
    }
}

// How many of the outputs before o are the node's.
fn place_among(w: &[u16; WORDS], node: u16, o: u16) -> u16
    ensures { result ≡ words.place_among w.now node o }
{
    let end = o.min(output_count(w));
    let mut sum: u16 = 0;
    for i in 0..end {
        if output_node(w, i) == node {
            sum += 1;
        }
    }
    sum
}

fn put_output(w: &[u16; WORDS], out: &mut [u32], at: Place, o: u16) -> Place
    ensures { Puts out.old at (plain (words.output_words w.now o)) out.new result }
{
    let node = node_of(w, o);
    // Where no word is lent its place among the node's need not be known.
    let place = if out.is_empty() {
        0
    } else {
        place_among(w, node, o)
    };
    put_three(out, at, 3, node, place)
}

fn put_parts(w: &[u16; WORDS], out: &mut [u32], at: Place, v: u16) -> Place
    ensures { Puts out.old at (plain (words.value_words w.now v)) out.new result }
{
    let p = parts_of(v);
    if p.kind == 3 {
        put_output(w, out, at, p.index)
    } else {
        put_three(out, at, p.kind, p.of, p.index)
    }
}

pub fn put_value(w: &[u16; WORDS], out: &mut [u32], at: Place, v: u16) -> Place
    ensures { parts.OfState w.now (λ g s.
        Puts out.old at (parts.value_part s (value v)) out.new result) }
{
    let x = look_up(w, v);
    let noted = note(at, x.twice);
    put_parts(w, out, noted, x.value)
}

// The values whose words `word_of` gives, n of them, with their count in front: the last is put first.
pub fn put_values<F: Fn(u16) -> u16>(
    w: &[u16; WORDS],
    out: &mut [u32],
    at: Place,
    n: u16,
    word_of: F,
) -> Place
    requires { F.IsAlwaysCallable word_of }
    ensures { parts.OfState w.now (λ g s. (vs : List Value) → n ≡ length vs
        → ((k x : ℕ) → k < n → F.post word_of k x → value x ≡ get_or vs k no_value)
        → Puts out.old at (parts.values_part s vs) out.new result) }
{
    let mut front = at;
    for k in (0..n).rev() {
        front = put_value(w, out, front, word_of(k));
    }
    put_word(out, front, n)
}
