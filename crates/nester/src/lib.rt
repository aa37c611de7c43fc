// The public routine: from a store's bytes to the sheet in lent words, or a refusal.
#![tactic(auto)]

ghost use Rattle.cfg_claims.specs.Claims.{Stood};
ghost use Rattle.format.specs.Valid.{Valid};
ghost use Rattle.record.specs.Stands.{OfRecord};
ghost use Rattle.nester.specs.Answers as answers;
ghost use Rattle.nester.specs.Nests.{Nests};

use cfg::func::{Outcome, structurize_func};
use figure::{TOO_LARGE, figure};
use sheet::whole::{CLOSED, LEFTOVER, UNTOUCHED, WHOLE, write_sheet};
use state_regions::regions::children;
use store::{Refusal, WORDS};

// Refused where the lent words are too few.
fn write_or_refuse(
    w: &[u16; WORDS],
    out: &mut [u32],
    outcome: u16,
    figure: u32,
) -> Result<u32, Refusal>
    ensures { answers.WritesAnswer w.now outcome figure out.old out.new result }
{
    let n = write_sheet(w, out, outcome, figure)?;
    Ok(n)
}

// A whole or closed form, refused where its figure exceeds 4,294,967,295.
fn write_with_figure(w: &[u16; WORDS], out: &mut [u32], outcome: u16) -> Result<u32, Refusal>
    ensures { answers.FormsAnswer w.now outcome out.old out.new result }
{
    let cost = figure(w, children(w, fields::entry(w)));
    if cost == TOO_LARGE {
        return Err(Refusal::FigureTooLarge);
    }
    write_or_refuse(w, out, outcome, cost as u32)
}

// From an accepted record that stands in the words.
fn nest_record(w: &mut [u16; WORDS], out: &mut [u32]) -> Result<u32, Refusal>
    requires { Stood w.old }
    ensures { OfRecord w.old (λ g. Valid g
        → answers.NestsRecord g w.old w.new out.old out.new result) }
{
    match structurize_func(w)? {
        Outcome::Untouched => write_or_refuse(w, out, UNTOUCHED, 0),
        Outcome::Whole => write_with_figure(w, out, WHOLE),
        Outcome::Closed => write_with_figure(w, out, CLOSED),
        Outcome::Leftover => write_or_refuse(w, out, LEFTOVER, 0),
    }
}

// How many words the sheet has, which stand in front of `out` then.
pub fn nest(bytes: &[u8], w: &mut [u16; WORDS], out: &mut [u32]) -> Result<u32, Refusal>
    ensures { Nests bytes.now w.old w.new out.old out.new result }
{
    accept::accept(bytes, w)?;
    nest_record(w, out)
}
