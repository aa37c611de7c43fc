// Exits: lead, node, opcode, values.
ghost use Rattle.std.specs.Prelude.{◌≡◌, List, ℕ, ◌<◌, length, get_or};
ghost use Rattle.meaning.specs.Graph as graph;
ghost use Rattle.meaning.specs.Graph.{region, no_value, exit_invocation};
ghost use Rattle.meaning.specs.Runs.{exit};
ghost use Rattle.record.specs.Stands.{OfRecord};
ghost use Rattle.fields.specs.ByNumber.{end_values};
ghost use Rattle.state_shown.specs.Values.{value};
ghost use Rattle.sheet_words.specs.Parts as parts;
ghost use Rattle.sheet_words.specs.Parts.{OfState};
ghost use Rattle.sheet_words.specs.PutInFront.{Puts};

use fields::Terminator;
use sheet_words::leads::EXIT_LINE;
use sheet_words::place::{Place, put_three};
use sheet_words::value::put_values;
use state_words::values::value_word;
use store::WORDS;

// The word of the value of region r's terminator at place k.
fn end_word(w: &[u16; WORDS], r: u16, k: u16) -> u16
    ensures { OfState w.now (λ g s. k < length (end_values g r)
        → value result ≡ get_or (end_values g r) k no_value) }
{
    value_word(fields::value(w, r, k))
}

// The values of region r's terminator, with their count in front.
pub fn put_end_values(w: &[u16; WORDS], out: &mut [u32], at: Place, r: u16) -> Place
    ensures { OfState w.now (λ g s. Puts out.old at (parts.values_part s (end_values g r))
        out.new result) }
{
    let n = fields::value_count(w, r);
    put_values(w, out, at, n, |k| end_word(w, r, k))
}

// Of an exit; 0 where the terminator is another.
fn opcode(w: &[u16; WORDS], r: u16) -> u16
    ensures { OfRecord w.now (λ g. (op : ℕ) (vs : List graph.Value) → (region g r).terminator ≡ exit_invocation op vs
        → result ≡ op) }
{
    match fields::terminator(w, r) {
        Terminator::ExitInvocation(op) => op,
        _ => 0,
    }
}

// The exit of region r, as this node.
pub fn put_exit(w: &[u16; WORDS], out: &mut [u32], at: Place, node: u16, r: u16) -> Place
    ensures { OfState w.now (λ g s. (op : ℕ) (vs : List graph.Value) → (region g r).terminator ≡ exit_invocation op vs
        → Puts out.old at (parts.node_part s (exit node op vs)) out.new result) }
{
    let values = put_end_values(w, out, at, r);
    let op = opcode(w, r);
    put_three(out, values, EXIT_LINE, node, op)
}
