// Blocks: lead, node, items.
ghost use Rattle.std.specs.Prelude.{◌≡◌, ◌<◌, length, get_or};
ghost use Rattle.meaning.specs.Graph.{region, no_value};
ghost use Rattle.meaning.specs.Runs.{block};
ghost use Rattle.nesting.specs.Nesting.{blocks_of};
ghost use Rattle.fields.specs.ByNumber.{block_of, instr_of, instructions_before};
ghost use Rattle.state_shown.specs.Values.{value};
ghost use Rattle.sheet_words.specs.Parts as parts;
ghost use Rattle.sheet_words.specs.Parts.{OfState};
ghost use Rattle.sheet_words.specs.PutInFront.{Puts};
ghost use Rattle.sheet_blocks.specs.BlockParts.{item_part};

use sheet_words::leads::BLOCK_LINE;
use sheet_words::place::{Place, put, put_word};
use sheet_words::value::put_values;
use state_words::values::value_word;
use store::WORDS;

// The word of what an instruction reads at place k.
fn read_word(w: &[u16; WORDS], r: u16, b: u16, i: u16, k: u16) -> u16
    ensures { OfState w.now (λ g s. k < length (instr_of g r b i).reads
        → value result ≡ get_or (instr_of g r b i).reads k no_value) }
{
    value_word(fields::read(w, r, b, i, k))
}

// The reads of an instruction, n of them, with their count in front.
fn put_reads(w: &[u16; WORDS], out: &mut [u32], at: Place, r: u16, b: u16, i: u16, n: u16) -> Place
    ensures { OfState w.now (λ g s. n ≡ length (instr_of g r b i).reads → Puts out.old at
        (parts.values_part s (instr_of g r b i).reads) out.new result) }
{
    put_values(w, out, at, n, |k| read_word(w, r, b, i, k))
}

// Region, index, opcode, type, reads.
fn put_item(
    w: &[u16; WORDS],
    out: &mut [u32],
    at: Place,
    r: u16,
    b: u16,
    i: u16,
    index: u32,
) -> Place
    ensures { OfState w.now (λ g s. Puts out.old at (item_part s r index (instr_of g r b i))
        out.new result) }
{
    let x = fields::instruction(w, r, b, i);
    let reads = put_reads(w, out, at, r, b, i, x.reads);
    let ty = put_word(out, reads, x.ty);
    let opcode = put_word(out, ty, x.opcode);
    let place = put(out, opcode, index);
    put_word(out, place, r)
}

// Block b of region r, as this node.
pub fn put_block(w: &[u16; WORDS], out: &mut [u32], at: Place, r: u16, b: u16, node: u32) -> Place
    ensures { OfState w.now (λ g s. Puts out.old at
        (parts.node_part s (block node r (instructions_before (region g r).blocks b) (block_of g r b))) out.new result) }
{
    let n = fields::block_length(w, r, b);
    let first = fields::instructions_before(w, r, b);
    let mut front = at;
    for i in (0..n).rev() {
        front = put_item(w, out, front, r, b, i, first + u32::from(i));
    }
    let items = put_word(out, front, n);
    let number = put(out, items, node);
    put_word(out, number, BLOCK_LINE)
}

// The blocks of region r, in order.
pub fn put_blocks(w: &[u16; WORDS], out: &mut [u32], at: Place, r: u16) -> Place
    ensures { OfState w.now (λ g s. Puts out.old at (parts.nodes_part s (blocks_of g r))
        out.new result) }
{
    let first = fields::blocks_before(w, r);
    let n = fields::block_count(w, r);
    let mut front = at;
    for b in (0..n).rev() {
        front = put_block(w, out, front, r, b, first + u32::from(b));
    }
    front
}
