// A region's line in front of its outputs: lead, region, its inputs' types, its child nodes. This is the one place that puts it.
ghost use Rattle.sheet_regions.specs.RegionLine as line;

use crate::put_kids;
use crate::types::{put_all_types, put_kept_types};
use sheet_words::leads::REGION_LINE;
use sheet_words::place::{Place, put_word};
use state_words::handles::Handle;
use store::WORDS;

// The inputs that a line names: a case's region has none, a piece of the answer all of the record's, a loop's body those that are kept. An
// enum and no closure that puts them: the clause of its call would be longer than the three arms.
#[derive(Clone, Copy)]
pub enum RegionInputs {
    None,
    All,
    Kept(Handle),
}

fn put_types(w: &[u16; WORDS], out: &mut [u32], at: Place, r: u16, inputs: RegionInputs) -> Place
    ensures { line.PutsTypes w.now r inputs out.old at out.new result }
{
    match inputs {
        RegionInputs::None => put_word(out, at, 0),
        RegionInputs::All => put_all_types(w, out, at, r),
        RegionInputs::Kept(list) => put_kept_types(w, out, at, list, r),
    }
}

pub fn put_region_line(
    w: &[u16; WORDS],
    out: &mut [u32],
    at: Place,
    r: u16,
    inputs: RegionInputs,
    list: Handle,
) -> Place
    ensures { line.PutsRegionLine w.now r inputs list.0 out.old at out.new result }
{
    let kids = put_kids(w, out, at, list);
    let types = put_types(w, out, kids, r, inputs);
    let number = put_word(out, types, r);
    put_word(out, number, REGION_LINE)
}
