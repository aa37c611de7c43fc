// From a store's bytes to the text that is printed of it: its sheet, or its refusal.
#![tactic(auto)]

ghost use Rattle.text_nest.specs.Prints.{Prints};

use store::WORDS;
use store::refusals::{number, word};
use text::BufferFull;

pub fn print(
    bytes: &[u8],
    words: &mut [u16; WORDS],
    out: &mut [u32],
    text: &mut [u8],
) -> Result<usize, BufferFull>
    ensures { Prints bytes.now words.old words.new
        out.old out.new text.old text.new result }
{
    match nester::nest(bytes, words, out) {
        Ok(n) => text_sheet::sheet_text(out, n as usize, text),
        Err(why) => text::refusal(number(why), word(why), text),
    }
}
