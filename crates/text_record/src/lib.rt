// An accepted record as text, in a lent buffer.
#![tactic(auto)]

ghost use Rattle.record.specs.Stands.{OfRecord};
ghost use Rattle.text.specs.Buffer.{buffer, Wrote};
ghost use Rattle.text.specs.Whole.{Whole};
ghost use Rattle.text_parts.specs.Listing.{head_text, listing_of};

mod regions;

use regions::put_regions;
use store::WORDS;
use text::{BufferFull, put_byte, put_labeled, put_text};
use text_parts::lists::{Numbers, put_numbers};

fn put_head(w: &[u16; WORDS], out: &mut [u8], at: usize) -> usize
    ensures { OfRecord w.now (λ g. Wrote (buffer out.old at) (head_text g) (buffer out.new result)) }
{
    let mut place = put_labeled(out, at, b"record regions ", fields::region_count(w) as u32);
    place = put_labeled(out, place, b" entry ", fields::entry(w) as u32);
    place = put_labeled(out, place, b" test ", fields::test_cost(w) as u32);
    place = put_text(out, place, b" constants ");
    place = put_numbers(w, out, place, Numbers::Constants);
    put_byte(out, place, b'\n')
}

// The record that stands in the words, from the buffer's beginning on.
pub fn list(w: &[u16; WORDS], out: &mut [u8]) -> Result<usize, BufferFull>
    ensures { OfRecord w.now (λ g. Whole (listing_of g) out.old out.new result) }
{
    let mut place = put_head(w, out, 0);
    place = put_regions(w, out, place);
    text::finish(out.len(), place)
}
