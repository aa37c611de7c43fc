// Outputs of select nodes, by number: node, type, a value for each case.
ghost use Rattle.std.specs.Prelude.{◌≡◌};
ghost use Rattle.state_words.specs.Sections as sections;
ghost use Rattle.state_nodes.specs.NodeTables as tables;
ghost use Rattle.state_words.specs.Rows as rows;

use state_words::defined::{MOST_OUTPUTS, OUTPUT_TOTAL, TooMany, head, set_head};
use state_words::sections::{OUTPUTS, get, put, put_all};
use store::WORDS;

// An output has ten words.
const ROW: usize = 10;

pub fn output_count(w: &[u16; WORDS]) -> u16
    ensures { result ≡ sections.word w.now sections.head rows.outputs_at }
{
    head(w, OUTPUT_TOTAL)
}

pub fn output_node(w: &[u16; WORDS], o: u16) -> u16
    ensures { result ≡ rows.output_node w.now o }
{
    get(w, OUTPUTS, ROW * (o as usize))
}

pub fn output_type(w: &[u16; WORDS], o: u16) -> u16
    ensures { result ≡ rows.output_type w.now o }
{
    get(w, OUTPUTS, ROW * (o as usize) + 1)
}

// In the case at place j.
pub fn output_value(w: &[u16; WORDS], o: u16, j: u16) -> u16
    ensures { result ≡ rows.output_value w.now o j }
{
    get(w, OUTPUTS, ROW * (o as usize) + 2 + (j as usize))
}

pub fn define_output(
    w: &mut [u16; WORDS],
    node: u16,
    ty: u16,
    vs: &[u16; 8],
) -> Result<u16, TooMany>
    ensures { tables.OutputDefined node ty vs.now w.old w.new result }
{
    let o = output_count(w);
    if o < MOST_OUTPUTS {
        let at = ROW * (o as usize);
        put(w, OUTPUTS, at, node);
        put(w, OUTPUTS, at + 1, ty);
        put_all(w, OUTPUTS, at + 2, vs);
        set_head(w, OUTPUT_TOTAL, o + 1);
        return Ok(o);
    }
    Err(TooMany)
}
