// From a store's bytes to the loaded and checked record: refusals 1 to 8.
#![tactic(auto)]

ghost use Rattle.accept.specs.Accepts.{Accepts};

use store::{Refusal, WORDS};

// Store, reading, references, in this order, each whole before the next begins. The record stands in the lent words then.
pub fn accept(bytes: &[u8], words: &mut [u16; WORDS]) -> Result<(), Refusal>
    ensures { Accepts bytes.now words.old words.new result }
{
    store::load(bytes, words)?;
    record::read_record(words)?;
    references::references(words)
}
