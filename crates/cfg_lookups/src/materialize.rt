// Lazy conditions made real, the Rust's materialize_lazy_cond. A record has at most eight parts, and there is no heap.
ghost use Rattle.std.specs.Prelude.{◌≡◌};
ghost use Rattle.cfg_lookups.specs.Materialized as words;

use state_nodes::conditions::{
    BOOL_COND, FALSE_COND, MERGE, TRUE_COND, cond_node, cond_part, cond_scrutinee, cond_shape,
    shape_size,
};
use state_nodes::outputs::define_output;
use state_words::defined::TooMany;
use state_words::values::{FALSE, TRUE, UNDEF, output, undef};
use store::WORDS;

// Whether the values in the cases are [true, false].
fn is_scrutinee(shape: u16, vs: &[u16; 8]) -> bool
    ensures { result ≡ words.is_scrutinee shape vs.now }
{
    shape == BOOL_COND && vs[0] == TRUE && vs[1] == FALSE
}

// A boolean [true, false] is the scrutinee itself; anything else is a new output of the select, of type boolean.
fn merged(w: &mut [u16; WORDS], c: u16, vs: &[u16; 8]) -> Result<u16, TooMany>
    ensures { words.Merges w.old c vs.now w.new result }
{
    let shape = cond_shape(w, c);
    if is_scrutinee(shape, vs) {
        return Ok(cond_scrutinee(w, c));
    }
    let node = cond_node(w, c);
    let o = define_output(w, node, 1, vs)?;
    Ok(output(o))
}

// The value of a condition; its parts are earlier records.
pub fn materialize_lazy_cond(w: &mut [u16; WORDS], c: u16) -> Result<u16, TooMany>
    ensures { words.Materializes w.old c w.new result }
{
    if c == TRUE_COND {
        return Ok(TRUE);
    }
    if c == FALSE_COND {
        return Ok(FALSE);
    }
    if c < MERGE {
        return Ok(undef(1));
    }
    let n = shape_size(cond_shape(w, c));
    let mut vs = [UNDEF; 8];
    for j in 0..n {
        let part = cond_part(w, c, j);
        vs[j as usize] = materialize_lazy_cond(w, part)?;
    }
    merged(w, c, &vs)
}
