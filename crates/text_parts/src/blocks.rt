// The lines of a region's blocks.
ghost use Rattle.std.specs.Prelude.{◌+◌, ◌≤◌};
ghost use Rattle.meaning.specs.Graph.{region};
ghost use Rattle.meaning.specs.Text.{listed};
ghost use Rattle.record.specs.Stands.{OfRecord};
ghost use Rattle.fields.specs.ByNumber.{block_of, instr_of};
ghost use Rattle.text.specs.Buffer.{buffer, Wrote};
ghost use Rattle.text_parts.specs.Listing.{item_listing, items_text, block_text};
ghost use Rattle.text_parts.specs.Listing.{blocks_text};

use super::lists::{Values, put_dotted, put_values};
use store::WORDS;
use text::{put_byte, put_labeled, put_text};

// Instruction i of block b, which has number k in its region.
fn put_item(w: &[u16; WORDS], out: &mut [u8], at: usize, r: u16, b: u16, i: u16, k: u32) -> usize
    ensures { OfRecord w.now (λ g.
        Wrote (buffer out.old at) (item_listing r k (instr_of g r b i)) (buffer out.new result)) }
{
    let x = fields::instruction(w, r, b, i);
    let mut place = put_dotted(out, at, r, k);
    place = put_labeled(out, place, b"/", x.opcode as u32);
    place = put_labeled(out, place, b"/", x.ty as u32);
    place = put_labeled(out, place, b"/", x.cost as u32);
    place = put_byte(out, place, b'/');
    put_values(w, out, place, Values::Reads(r, b, i))
}

// The instructions of block b, the first of which has number k; the bound leaves room to count 65,535 more.
fn put_items(w: &[u16; WORDS], out: &mut [u8], at: usize, r: u16, b: u16, k: u32) -> usize
    requires { k ≤ 4294901760 }
    ensures { OfRecord w.now (λ g.
        Wrote (buffer out.old at) (listed (λ t. t) (items_text r k (block_of g r b))) (buffer out.new result)) }
{
    let n = fields::block_length(w, r, b);
    if n == 0 {
        return put_byte(out, at, b'-');
    }
    let mut place = put_item(w, out, at, r, b, 0, k);
    for i in 1..n {
        place = put_byte(out, place, b',');
        place = put_item(w, out, place, r, b, i, k + (i as u32));
    }
    place
}

fn put_block(w: &[u16; WORDS], out: &mut [u8], at: usize, r: u16, b: u16, k: u32) -> usize
    requires { k ≤ 4294901760 }
    ensures { OfRecord w.now (λ g.
        Wrote (buffer out.old at) (block_text r k (block_of g r b)) (buffer out.new result)) }
{
    let mut place = put_text(out, at, b"block ");
    place = put_items(w, out, place, r, b, k);
    put_byte(out, place, b'\n')
}

pub fn put_blocks(w: &[u16; WORDS], out: &mut [u8], at: usize, r: u16) -> usize
    ensures { OfRecord w.now (λ g.
        Wrote (buffer out.old at) (blocks_text r 0 (region g r).blocks) (buffer out.new result)) }
{
    let n = fields::block_count(w, r);
    let mut place = at;
    let mut k: u32 = 0;
    for b in 0..n {
        place = put_block(w, out, place, r, b, k);
        k += fields::block_length(w, r, b) as u32;
    }
    place
}
