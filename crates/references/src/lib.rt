// References in record order: refusals 6, 7 and 8 (document 01, "What turns a record away").
#![tactic(auto)]

ghost use Rattle.std.specs.Prelude.{◌≡◌, [], ◌≤◌};
ghost use Rattle.meaning.specs.Graph.{region, edges_of};
ghost use Rattle.format.specs.References as format;
ghost use Rattle.store.specs.Loaded.{answered};
ghost use Rattle.record.specs.Stands.{OfRecord};
ghost use Rattle.fields.specs.ByNumber.{block_of, instr_of, end_values, edge_of};
ghost use Rattle.fields.specs.Shape.{value_is};
ghost use Rattle.references.specs.Checks.{typed, first_right};

use fields::{Terminator, Value};
use store::{Refusal, WORDS};

fn named_right(w: &[u16; WORDS], r: u16, before: usize, v: Value) -> Result<(), Refusal>
    ensures { OfRecord w.now (λ g. answered result ≡ format.named_right g r before (value_is v)) }
{
    if fields::type_in(w, r, before, v) == 0 {
        Err(Refusal::WrongReference(r))
    } else {
        Ok(())
    }
}

// A value behind all instructions of region r: named, and of type t.
fn named_of_type(w: &[u16; WORDS], r: u16, t: u16, v: Value) -> Result<(), Refusal>
    ensures { OfRecord w.now (λ g. answered result ≡ typed g r t (value_is v)) }
{
    let found = fields::type_in(w, r, fields::instruction_count(w, r), v);
    if found == 0 {
        return Err(Refusal::WrongReference(r));
    }
    if found != t {
        return Err(Refusal::WrongType(r));
    }
    Ok(())
}

// Each read of instruction i of block b, which stands behind `before` instructions of the region.
fn instruction_reads_right(
    w: &[u16; WORDS],
    r: u16,
    b: u16,
    i: u16,
    before: usize,
) -> Result<(), Refusal>
    ensures { OfRecord w.now (λ g.
        answered result ≡ format.first_refusal (format.named_right g r before) (instr_of g r b i).reads) }
{
    let x = fields::instruction(w, r, b, i);
    let n = x.reads;
    for k in 0..n {
        named_right(w, r, before, fields::read(w, r, b, i, k))?;
    }
    Ok(())
}

fn block_reads_right(w: &[u16; WORDS], r: u16, b: u16, before: usize) -> Result<(), Refusal>
    requires { before ≤ 4294836225 }
    ensures { OfRecord w.now (λ g. answered result ≡ format.reads_right g r before (block_of g r b)) }
{
    let n = fields::block_length(w, r, b);
    for i in 0..n {
        instruction_reads_right(w, r, b, i, before + (i as usize))?;
    }
    Ok(())
}

fn reads_right(w: &[u16; WORDS], r: u16) -> Result<(), Refusal>
    ensures { OfRecord w.now (λ g. answered result ≡ format.reads_right g r 0 (format.instructions (region g r).blocks)) }
{
    let n = fields::block_count(w, r);
    let mut before: usize = 0;
    for b in 0..n {
        block_reads_right(w, r, b, before)?;
        before += fields::block_length(w, r, b) as usize;
    }
    Ok(())
}

// What region r returns has the types of what the first Return region returns.
fn returned_right(w: &[u16; WORDS], r: u16) -> Result<(), Refusal>
    ensures { OfRecord w.now (λ g. answered result ≡ format.passed_right g r (format.return_types g) (end_values g r)) }
{
    let q = fields::first_return(w);
    let n = fields::value_count(w, r);
    if n != fields::value_count(w, q) {
        return Err(Refusal::WrongType(r));
    }
    for k in 0..n {
        named_of_type(w, r, fields::return_type(w, q, k), fields::value(w, r, k))?;
    }
    Ok(())
}

// Each value that ExitInvocation names.
fn exit_values_right(w: &[u16; WORDS], r: u16) -> Result<(), Refusal>
    ensures { OfRecord w.now (λ g.
        answered result ≡ format.first_refusal (format.named_right g r (format.behind_all g r)) (end_values g r)) }
{
    let before = fields::instruction_count(w, r);
    let n = fields::value_count(w, r);
    for k in 0..n {
        named_right(w, r, before, fields::value(w, r, k))?;
    }
    Ok(())
}

fn values_right(w: &[u16; WORDS], r: u16) -> Result<(), Refusal>
    ensures { OfRecord w.now (λ g. answered result ≡ format.values_right g r (region g r).terminator) }
{
    match fields::terminator(w, r) {
        Terminator::Unreachable | Terminator::Branch => Ok(()),
        Terminator::Return => returned_right(w, r),
        Terminator::ExitInvocation(_) => exit_values_right(w, r),
        Terminator::SelectBool => named_of_type(w, r, 1, fields::value(w, r, 0)),
        Terminator::SelectNumber => named_right(
            w,
            r,
            fields::instruction_count(w, r),
            fields::value(w, r, 0),
        ),
    }
}

fn targets_right(w: &[u16; WORDS], r: u16) -> Result<(), Refusal>
    ensures { OfRecord w.now (λ g.
        answered result ≡ format.first_refusal (format.target_right g r) (edges_of (region g r).terminator)) }
{
    let count = fields::region_count(w);
    let n = fields::target_count(w, r);
    for j in 0..n {
        if count <= fields::target(w, r, j) {
            return Err(Refusal::WrongReference(r));
        }
    }
    Ok(())
}

// Values for the inputs of the target at place j: as many, then each named, and of its type.
fn passed_right(w: &[u16; WORDS], r: u16, j: u16) -> Result<(), Refusal>
    ensures { OfRecord w.now (λ g. answered result ≡ format.edge_right g r (edge_of g r j)) }
{
    let t = fields::target(w, r, j);
    let n = fields::passed_count(w, r, j);
    if n != fields::input_count(w, t) {
        return Err(Refusal::WrongType(r));
    }
    for k in 0..n {
        named_of_type(
            w,
            r,
            fields::input_type(w, t, k),
            fields::passed(w, r, j, k),
        )?;
    }
    Ok(())
}

// The values for the target at place j, where it stands for the first time.
fn edge_right(w: &[u16; WORDS], r: u16, j: u16) -> Result<(), Refusal>
    ensures { OfRecord w.now (λ g. answered result ≡ first_right g r (edges_of (region g r).terminator) j) }
{
    if fields::target_again(w, r, j) {
        Ok(())
    } else {
        passed_right(w, r, j)
    }
}

// The values passed to each distinct target.
fn edges_right(w: &[u16; WORDS], r: u16) -> Result<(), Refusal>
    ensures { OfRecord w.now (λ g.
        answered result ≡ format.first_refusal (format.edge_right g r) (format.first_edges [] (edges_of (region g r).terminator))) }
{
    let n = fields::target_count(w, r);
    for j in 0..n {
        edge_right(w, r, j)?;
    }
    Ok(())
}

// Each exit is a region, and none stands twice.
fn exits_right(w: &[u16; WORDS], r: u16) -> Result<(), Refusal>
    ensures { OfRecord w.now (λ g. answered result ≡ format.exits_right g r [] (region g r).exits) }
{
    let count = fields::region_count(w);
    let n = fields::exit_count(w, r);
    for k in 0..n {
        if count <= fields::exit_target(w, r, k) {
            return Err(Refusal::WrongReference(r));
        }
        if fields::exit_again(w, r, k) {
            return Err(Refusal::ExitNamedTwice(r));
        }
    }
    Ok(())
}

fn region_right(w: &[u16; WORDS], r: u16) -> Result<(), Refusal>
    ensures { OfRecord w.now (λ g. answered result ≡ format.region_right g r (region g r)) }
{
    reads_right(w, r)?;
    values_right(w, r)?;
    targets_right(w, r)?;
    edges_right(w, r)?;
    exits_right(w, r)
}

// The entry, then each region, also where it is out of reach.
pub fn references(w: &[u16; WORDS]) -> Result<(), Refusal>
    ensures { OfRecord w.now (λ g. answered result ≡ format.references g) }
{
    let n = fields::region_count(w);
    if n <= fields::entry(w) {
        return Err(Refusal::WrongReference(0));
    }
    for r in 0..n {
        region_right(w, r)?;
    }
    Ok(())
}
