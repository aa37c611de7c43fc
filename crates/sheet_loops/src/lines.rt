// A loop's own line, and its body's region line.
ghost use Rattle.sheet_words.specs.Parts.{OfState, region_part};
ghost use Rattle.sheet_words.specs.PutInFront.{Puts};
ghost use Rattle.sheet_loops.specs.LoopParts.{loop_part, loop_lines};
ghost use Rattle.sheet_loops.specs.OfLoop.{OfLoop};

use crate::kept::put_kept_values;
use sheet_regions::region_line::{RegionInputs, put_region_line};
use sheet_words::leads::LOOP_LINE;
use sheet_words::place::{Place, put_word};
use sheet_words::value::put_value;
use state_nodes::cells::{loop_body, loop_header, loop_kept, loop_node, loop_repeat};
use state_words::handles::Handle;
use store::WORDS;

// Region, inputs' types, child nodes, outputs.
fn put_body_line(w: &[u16; WORDS], out: &mut [u32], at: Place, h: Handle) -> Place
    ensures { OfState w.now (λ g s. OfLoop g w.now h.0 (λ x ns.
        Puts out.old at (region_part s x.body x.types ns x.outputs) out.new result)) }
{
    let r = loop_header(w, h);
    let kept = loop_kept(w, h);
    let outputs = put_kept_values(w, out, at, kept, true);
    put_region_line(
        w,
        out,
        outputs,
        r,
        RegionInputs::Kept(kept),
        loop_body(w, h),
    )
}

// Node, initial inputs, body region, repeat value.
fn put_loop_line(w: &[u16; WORDS], out: &mut [u32], at: Place, h: Handle) -> Place
    ensures { OfState w.now (λ g s. OfLoop g w.now h.0 (λ x ns.
        Puts out.old at (loop_part s x) out.new result)) }
{
    let repeat = put_value(w, out, at, loop_repeat(w, h));
    let body = put_word(out, repeat, loop_header(w, h));
    let initial = put_kept_values(w, out, body, loop_kept(w, h), false);
    let number = put_word(out, initial, loop_node(w, h));
    put_word(out, number, LOOP_LINE)
}

// Of the loop that cell h adds: what stands before its body's nodes.
pub fn put_loop_lines(w: &[u16; WORDS], out: &mut [u32], at: Place, h: Handle) -> Place
    ensures { OfState w.now (λ g s. OfLoop g w.now h.0 (λ x ns.
        Puts out.old at (loop_lines s x ns) out.new result)) }
{
    let body = put_body_line(w, out, at, h);
    put_loop_line(w, out, body, h)
}
