// The lines of child nodes: each node, a select's cases or a loop's body following it. The walk falls with the cells' numbers.
ghost use Rattle.std.specs.Prelude.{◌≤◌};
ghost use Rattle.sheet_nodes.specs.Regions as regions;
ghost use Rattle.sheet_nodes.specs.Walk as walk;

use crate::cell::{inner_at, inner_total, put_cell_lines, walked_list};
use sheet_words::place::Place;
use state_lists::list_before;
use state_words::handles::Handle;
use store::WORDS;

// What cell h adds to its list: the last list inside it first, since words are put from the back.
#[cycle(put_cell_put_nodes)]
fn put_cell(w: &[u16; WORDS], out: &mut [u32], at: Place, h: Handle) -> Place
    requires { 1 ≤ h.0 }
    ensures { walk.PutsCell w.now h.0 out.old at out.new result }
{
    let mut e = at;
    for j in (0..inner_total(w, h)).rev() {
        let list = inner_at(w, h, j);
        let walked = walked_list(w, list);
        let nodes = put_nodes(w, out, e, walked);
        e = put_cell_lines(w, out, nodes, h, j + 1);
    }
    put_cell_lines(w, out, e, h, 0)
}

// Along cells: no index is counted.
#[cycle(put_cell_put_nodes)]
pub fn put_nodes(w: &[u16; WORDS], out: &mut [u32], at: Place, list: Handle) -> Place
    ensures { regions.PutsNodes w.now list.0 out.old at out.new result }
{
    let mut e = at;
    let mut h = list;
    while 0 < h.0 {
        e = put_cell(w, out, e, h);
        h = list_before(w, h);
    }
    e
}
