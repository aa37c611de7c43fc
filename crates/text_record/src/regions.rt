// The lines of the regions. What their lists hold differs in type (Numbers, Values), so each has its own function.
ghost use Rattle.std.specs.Prelude.{◌++◌, get_or};
ghost use Rattle.meaning.specs.Graph.{no_value, region, edges_of, targets_of};
ghost use Rattle.meaning.specs.Text.{ascii};
ghost use Rattle.record.specs.Stands.{OfRecord};
ghost use Rattle.fields.specs.ByNumber.{end_values, edge_of, stands_before};
ghost use Rattle.text.specs.Buffer.{buffer, Wrote};
ghost use Rattle.text_parts.specs.Parts.{pass_once};
ghost use Rattle.text_parts.specs.Listing.{value_listing, numbers_text, values_text};
ghost use Rattle.text_parts.specs.Listing.{terminator_text, pass_text, passes_text, region_line_text, exits_line, region_text};
ghost use Rattle.text_parts.specs.Listing.{regions_text};

use fields::Terminator;
use store::WORDS;
use text::{put_byte, put_labeled, put_text};
use text_parts::blocks::put_blocks;
use text_parts::lists::{Numbers, Values, put_numbers, put_value, put_values};

// A label and the terminator's values, to the line's end.
fn put_end_values(w: &[u16; WORDS], out: &mut [u8], at: usize, label: &[u8], r: u16) -> usize
    ensures { OfRecord w.now (λ g.
        Wrote (buffer out.old at) (label.now ++ values_text (end_values g r) ++ ascii "\n")
        (buffer out.new result)) }
{
    let mut place = put_text(out, at, label);
    place = put_values(w, out, place, Values::Terminator(r));
    put_byte(out, place, b'\n')
}

fn put_select(w: &[u16; WORDS], out: &mut [u8], at: usize, label: &[u8], r: u16) -> usize
    ensures { OfRecord w.now (λ g.
        Wrote (buffer out.old at)
        (label.now ++ value_listing (get_or (end_values g r) 0 no_value) ++ ascii " to " ++ numbers_text (targets_of g r)
        ++ ascii "\n")
        (buffer out.new result)) }
{
    let mut place = put_text(out, at, label);
    place = put_value(out, place, fields::value(w, r, 0));
    place = put_text(out, place, b" to ");
    place = put_numbers(w, out, place, Numbers::Targets(r));
    put_byte(out, place, b'\n')
}

fn put_terminator(w: &[u16; WORDS], out: &mut [u8], at: usize, r: u16) -> usize
    ensures { OfRecord w.now (λ g.
        Wrote (buffer out.old at) (terminator_text (region g r).terminator) (buffer out.new result)) }
{
    match fields::terminator(w, r) {
        Terminator::Unreachable => put_text(out, at, b"unreachable\n"),
        Terminator::Return => put_end_values(w, out, at, b"return ", r),
        Terminator::ExitInvocation(op) => {
            let place = put_labeled(out, at, b"exit ", op as u32);
            put_end_values(w, out, place, b" ", r)
        }
        Terminator::Branch => {
            let place = put_labeled(out, at, b"branch to ", fields::target(w, r, 0) as u32);
            put_byte(out, place, b'\n')
        }
        Terminator::SelectBool => put_select(w, out, at, b"select bool ", r),
        Terminator::SelectNumber => put_select(w, out, at, b"select num ", r),
    }
}

// The values passed to the target at place j.
fn put_pass(w: &[u16; WORDS], out: &mut [u8], at: usize, r: u16, j: u16) -> usize
    ensures { OfRecord w.now (λ g.
        Wrote (buffer out.old at) (pass_text (edge_of g r j)) (buffer out.new result)) }
{
    let mut place = put_labeled(out, at, b"pass ", fields::target(w, r, j) as u32);
    place = put_text(out, place, b" in ");
    place = put_values(w, out, place, Values::Passed(r, j));
    put_byte(out, place, b'\n')
}

// The same, unless that target stood before.
fn put_pass_once(w: &[u16; WORDS], out: &mut [u8], at: usize, r: u16, j: u16) -> usize
    ensures { OfRecord w.now (λ g.
        Wrote (buffer out.old at) (pass_once (stands_before (targets_of g r) j) (edge_of g r j))
        (buffer out.new result)) }
{
    if fields::target_again(w, r, j) {
        return at;
    }
    put_pass(w, out, at, r, j)
}

// Each distinct target, by first standing.
fn put_passes(w: &[u16; WORDS], out: &mut [u8], at: usize, r: u16) -> usize
    ensures { OfRecord w.now (λ g.
        Wrote (buffer out.old at) (passes_text (edges_of (region g r).terminator)) (buffer out.new result)) }
{
    let n = fields::target_count(w, r);
    let mut place = at;
    for j in 0..n {
        place = put_pass_once(w, out, place, r, j);
    }
    place
}

// A region's first line: its inputs' types and its turn limit.
fn put_region_head(w: &[u16; WORDS], out: &mut [u8], at: usize, r: u16) -> usize
    ensures { OfRecord w.now (λ g.
        Wrote (buffer out.old at) (region_line_text r (region g r)) (buffer out.new result)) }
{
    let mut place = put_labeled(out, at, b"region ", r as u32);
    place = put_text(out, place, b" in ");
    place = put_numbers(w, out, place, Numbers::Inputs(r));
    place = put_labeled(out, place, b" limit ", fields::limit(w, r) as u32);
    put_byte(out, place, b'\n')
}

fn put_exits(w: &[u16; WORDS], out: &mut [u8], at: usize, r: u16) -> usize
    ensures { OfRecord w.now (λ g.
        Wrote (buffer out.old at) (exits_line (region g r).exits) (buffer out.new result)) }
{
    let mut place = put_text(out, at, b"exits ");
    place = put_numbers(w, out, place, Numbers::Exits(r));
    put_byte(out, place, b'\n')
}

fn put_region(w: &[u16; WORDS], out: &mut [u8], at: usize, r: u16) -> usize
    ensures { OfRecord w.now (λ g.
        Wrote (buffer out.old at) (region_text r (region g r)) (buffer out.new result)) }
{
    let mut place = put_region_head(w, out, at, r);
    place = put_blocks(w, out, place, r);
    place = put_terminator(w, out, place, r);
    place = put_passes(w, out, place, r);
    put_exits(w, out, place, r)
}

pub fn put_regions(w: &[u16; WORDS], out: &mut [u8], at: usize) -> usize
    ensures { OfRecord w.now (λ g.
        Wrote (buffer out.old at) (regions_text 0 g.regions) (buffer out.new result)) }
{
    let n = fields::region_count(w);
    let mut place = at;
    for r in 0..n {
        place = put_region(w, out, place, r);
    }
    place
}
