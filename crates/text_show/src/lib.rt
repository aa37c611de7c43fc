// From a store's bytes to the text that is shown of it.
#![tactic(auto)]

ghost use Rattle.text_show.specs.Shows.{Shows};

use store::WORDS;
use store::refusals::{number, word};
use text::BufferFull;

// The refusal of a store, or its record, as text from the buffer's beginning on.
pub fn show(bytes: &[u8], words: &mut [u16; WORDS], out: &mut [u8]) -> Result<usize, BufferFull>
    ensures { Shows bytes.now words.old words.new out.old out.new result }
{
    match accept::accept(bytes, words) {
        Ok(()) => text_record::list(words, out),
        Err(why) => text::refusal(number(why), word(why), out),
    }
}
