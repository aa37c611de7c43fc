// Outputs and conditions of a select: what was planned in the spare slot is made. A select has at most eight cases, and there is no heap.
ghost use Rattle.std.specs.Prelude.{◌≡◌};
ghost use Rattle.record.specs.Stands.{OfRecord};
ghost use Rattle.cfg_emits.specs.Emits as words;

use cfg_bundles::bundles::{target_input_count, target_input_type};
use cfg_planning::planning::{TO_DEFINE, TO_MERGE, per_case_condition, per_case_deferred};
use state_nodes::cells::select_node;
use state_nodes::conditions::define_merge;
use state_nodes::outputs::define_output;
use state_regions::cases::case_count;
use state_sets::sets::{
    NO_BUNDLE, SPARE, bundle_at, condition, set_condition, set_length, set_start, set_target_input,
    target, target_input,
};
use state_words::bundle_numbers::BundleNumber;
use state_words::defined::TooMany;
use state_words::handles::Handle;
use state_words::values::{UNDEF, output, undef};
use store::WORDS;

fn value_in_case(w: &[u16; WORDS], p: BundleNumber, k: u16, ty: u16) -> u16
    ensures { result ≡ words.value_in_case w.now p.0 k ty }
{
    if p.0 == NO_BUNDLE {
        undef(ty)
    } else {
        target_input(w, p, k)
    }
}

// Input k of a target in each case, undefined of its type where a case has none.
fn values_in_cases(w: &[u16; WORDS], places: &[u16; 8], k: u16, ty: u16) -> [u16; 8]
    ensures { words.ValuesIn w.now places.now k ty result }
{
    let n = case_count(w);
    let mut vs = [UNDEF; 8];
    for j in 0..n {
        let p = places[j as usize];
        let v = value_in_case(w, BundleNumber(p), k, ty);
        vs[j as usize] = v;
    }
    vs
}

// Input k of the bundle at q to target t, where it is to be made: an output of the select.
fn emit_input(
    w: &mut [u16; WORDS],
    node: u16,
    q: BundleNumber,
    t: u16,
    places: &[u16; 8],
    k: u16,
) -> Result<(), TooMany>
    ensures { OfRecord w.old (λ g.
        words.EmitInput g node q.0 t places.now k w.old w.new result) }
{
    if target_input(w, q, k) != TO_MERGE {
        return Ok(());
    }
    let ty = target_input_type(w, t, k);
    let vs = values_in_cases(w, places, k, ty);
    let o = define_output(w, node, ty, &vs)?;
    set_target_input(w, q, k, output(o));
    Ok(())
}

fn emit_inputs(
    w: &mut [u16; WORDS],
    node: u16,
    q: BundleNumber,
    places: &[u16; 8],
) -> Result<(), TooMany>
    ensures { OfRecord w.old (λ g.
        words.EmitInputs g node q.0 places.now w.old w.new result) }
{
    let t = target(w, q);
    let n = target_input_count(w, t);
    for k in 0..n {
        emit_input(w, node, q, t, places, k)?;
    }
    Ok(())
}

fn conditions_in_cases(w: &[u16; WORDS], places: &[u16; 8]) -> [u16; 8]
    ensures { words.ConditionsIn w.now places.now result }
{
    let n = case_count(w);
    let mut parts = [0u16; 8];
    for j in 0..n {
        let p = places[j as usize];
        let c = per_case_condition(w, j, BundleNumber(p));
        parts[j as usize] = c;
    }
    parts
}

// h is the select's cell.
fn emit_condition(
    w: &mut [u16; WORDS],
    h: Handle,
    q: BundleNumber,
    places: &[u16; 8],
) -> Result<(), TooMany>
    ensures { words.EmitCondition h.0 q.0 places.now w.old w.new result }
{
    if condition(w, q) != TO_DEFINE {
        return Ok(());
    }
    let parts = conditions_in_cases(w, places);
    let c = define_merge(w, h, &parts)?;
    set_condition(w, q, c);
    Ok(())
}

fn emit_bundle(w: &mut [u16; WORDS], h: Handle, q: BundleNumber) -> Result<(), TooMany>
    ensures { OfRecord w.old (λ g. words.EmitBundle g h.0 q.0 w.old w.new result) }
{
    let places = per_case_deferred(w, target(w, q));
    let node = select_node(w, h);
    emit_inputs(w, node, q, &places)?;
    emit_condition(w, h, q, &places)
}

// In the order of the select's deferred targets.
pub fn emit_bundles(w: &mut [u16; WORDS], h: Handle) -> Result<(), TooMany>
    ensures { OfRecord w.old (λ g. words.Emits g h.0 w.old w.new result) }
{
    let start = set_start(w, SPARE);
    let n = set_length(w, SPARE);
    for i in 0..n {
        emit_bundle(w, h, bundle_at(start, i))?;
    }
    Ok(())
}
