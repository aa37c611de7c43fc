// A region of the answer: its line, and those of its children.
ghost use Rattle.sheet_nodes.specs.Regions as regions;

use sheet_defers::inputs::put_target_inputs;
use sheet_nodes::nodes::put_nodes;
use sheet_regions::region_line::{RegionInputs, put_region_line};
use sheet_words::place::{Place, put_word};
use state_regions::regions::children;
use state_sets::sets::{bundle_at, set_start};
use store::WORDS;

// A region without outputs.
pub fn put_piece(w: &[u16; WORDS], out: &mut [u32], at: Place, r: u16) -> Place
    ensures { regions.PutsPiece w.now r out.old at out.new result }
{
    let list = children(w, r);
    let nodes = put_nodes(w, out, at, list);
    let none = put_word(out, nodes, 0);
    put_region_line(w, out, none, r, RegionInputs::All, list)
}

// The outputs of a whole form: the values of its one deferred edge.
fn put_whole_outputs(w: &[u16; WORDS], out: &mut [u32], at: Place, r: u16) -> Place
    ensures { regions.PutsWholeOutputs w.now r out.old at out.new result }
{
    put_target_inputs(w, out, at, bundle_at(set_start(w, r), 0))
}

// The entry of a whole form.
pub fn put_whole(w: &[u16; WORDS], out: &mut [u32], at: Place) -> Place
    ensures { regions.PutsWhole w.now out.old at out.new result }
{
    let r = fields::entry(w);
    let list = children(w, r);
    let nodes = put_nodes(w, out, at, list);
    let outputs = put_whole_outputs(w, out, nodes, r);
    put_region_line(w, out, outputs, r, RegionInputs::All, list)
}
