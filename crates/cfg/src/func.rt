// The Rust's structurize_func: the entry is claimed, and what comes of it is the outcome.
ghost use Rattle.std.specs.Prelude.{◌≡◌, length, Ok};
ghost use Rattle.record.specs.Stands.{OfRecord};
ghost use Rattle.format.specs.Valid.{Valid};
ghost use Rattle.cfg_claims.specs.Claims.{Stood, TriesClaim};
ghost use Rattle.nesting.specs.Nesting.{structurize_func};
ghost use Rattle.cfg.specs.Func as words;
ghost use Rattle.cfg.specs.FuncShown.{ShowsNested};

use cfg_claims::claims::try_claim_edge_bundle;
use cfg_incoming::{count_of, incoming_edge_counts};
use cfg_regions::claim::Claim;
use cfg_regions::inst::own_bundle;
use cfg_start::initial_state;
use state_sets::sets::{RETURN, set_length, target};
use state_words::edges::ONE;
use store::{Refusal, WORDS};

// Document 01's four outcomes, in its order.
#[derive(Clone, Copy, PartialEq, Eq, Debug)]
pub enum Outcome {
    Untouched,
    Whole,
    Closed,
    Leftover,
}

// What comes before the first claim: the incoming counts are taken, and the state is set to its beginning.
fn before_claim(w: &mut [u16; WORDS]) -> [u32; 32]
    ensures { OfRecord w.old (λ g. words.Begins g w.old result w.new) }
{
    let counts = incoming_edge_counts(w);
    initial_state(w);
    counts
}

// Whether the entry's count is ONE: if not, nothing is claimed.
fn entered_once(w: &[u16; WORDS], counts: &[u32; 32]) -> bool
    ensures { OfRecord w.now (λ g. result ≡ words.entered_once g counts.now) }
{
    count_of(counts, fields::entry(w)) == ONE
}

// The claim of the entry, with ONE edge.
fn claim_entry(w: &mut [u16; WORDS], counts: [u32; 32]) -> Result<Claim, Refusal>
    requires { Stood w.old }
    ensures { OfRecord w.old (λ g. TriesClaim g counts w.old g.entry 1 w.new result) }
{
    let entry = fields::entry(w);
    try_claim_edge_bundle(w, counts, entry, ONE)
}

// Whole if the deferred set is Always Return, closed if it is Unreachable.
fn outcome_of(w: &[u16; WORDS], entry: u16) -> Outcome
    ensures { words.Outcomes w.now entry result }
{
    let n = set_length(w, entry);
    if n == 0 {
        return Outcome::Closed;
    }
    if n == 1 {
        if target(w, own_bundle(w, entry, 0)) == RETURN {
            return Outcome::Whole;
        }
    }
    Outcome::Leftover
}

// What is concluded from the claim's answer.
fn conclude(w: &[u16; WORDS], claim: Claim) -> Result<Outcome, Refusal>
    ensures { OfRecord w.now (λ g. words.Concludes g w.now (Ok claim) result) }
{
    match claim {
        Claim::Claimed => Ok(outcome_of(w, fields::entry(w))),
        Claim::Unclaimed => Err(Refusal::Never(0)),
    }
}

// From an accepted record that stands in the words: its outcome, with the tables and the state that the words then show.
pub fn structurize_func(w: &mut [u16; WORDS]) -> Result<Outcome, Refusal>
    requires { Stood w.old }
    ensures { OfRecord w.old (λ g. Valid g → ShowsNested g w.old w.new (structurize_func g) result) }
{
    let counts = before_claim(w);
    if !entered_once(w, &counts) {
        return Ok(Outcome::Untouched);
    }
    let claim = claim_entry(w, counts)?;
    conclude(w, claim)
}
