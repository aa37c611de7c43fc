// Words read and text written, side by side. Both are passed beside the cursor and not in it, as the crate `text` says of its buffers.
ghost use Rattle.std.specs.Prelude.{◌≤◌, List, [], ◌∷◌, ℕ, length, get_or, MatchOption};
ghost use Rattle.text.specs.Buffer.{buffer, Wrote};
ghost use Rattle.nesting.specs.Sheet.{dotted};
ghost use Rattle.nesting.specs.decoding.Lines.{value_texts};
ghost use Rattle.text_cursor.specs.Texts.{say, number_text, value_text, skip_text, either_text};
ghost use Rattle.text_cursor.specs.WordsToText.{PutsText, NextWord, Stopped};

use nesting::{BOOL_KIND, CONST_KIND, INPUT_KIND, INSTR_KIND, OUTPUT_KIND, UNDEF_KIND};
use text::{put_byte, put_labeled, put_number, put_text};

// The next word to read, and the next byte to write. A place beyond the words' end says that they were not as they should be.
#[derive(Clone, Copy)]
pub struct SheetCursor {
    pub at: usize,
    pub place: usize,
}

// The next word, and the cursor behind it.
pub fn next_word(words: &[u32], c: SheetCursor) -> Option<(u32, SheetCursor)>
    ensures { MatchOption result (length words.now ≤ c.at) (λ x. NextWord words.now c x.0 x.1) }
{
    let word = words.get(c.at)?;
    Some((*word, SheetCursor { at: c.at + 1, ..c }))
}

// A word is missing, or is none that may stand there.
pub fn stop(words: &[u32], c: SheetCursor) -> SheetCursor
    ensures { Stopped words.now c result }
{
    SheetCursor {
        at: c.at.max(words.len() + 1),
        ..c
    }
}

pub fn say(text: &mut [u8], c: SheetCursor, label: &[u8]) -> SheetCursor
    ensures { (ws : List ℕ) → PutsText (say label.now) ws c text.old text.new result }
{
    let place = put_text(text, c.place, label);
    SheetCursor { place, ..c }
}

pub fn number(words: &[u32], text: &mut [u8], c: SheetCursor) -> SheetCursor
    ensures { PutsText number_text words.now c text.old text.new result }
{
    let Some((word, next)) = next_word(words, c) else {
        return stop(words, c);
    };
    let place = put_number(text, next.place, word);
    SheetCursor { place, ..next }
}

// A word for which nothing is shown.
pub fn skip(words: &[u32], c: SheetCursor) -> SheetCursor
    ensures { (bytes : List ℕ) → PutsText skip_text words.now c bytes bytes result }
{
    let Some((_, next)) = next_word(words, c) else {
        return stop(words, c);
    };
    next
}

// A word that is 0 or 1, by a text for each.
pub fn either(
    words: &[u32],
    text: &mut [u8],
    c: SheetCursor,
    zero: &[u8],
    one: &[u8],
) -> SheetCursor
    ensures { PutsText (either_text zero.now one.now)
        words.now c text.old text.new result }
{
    let Some((word, next)) = next_word(words, c) else {
        return stop(words, c);
    };
    match word {
        0 => say(text, next, zero),
        1 => say(text, next, one),
        _ => stop(words, c),
    }
}

// A region, or a node, and an index.
fn put_dotted(text: &mut [u8], at: usize, letter: u8, r: u32, k: u32) -> usize
    ensures { Wrote (buffer text.old at) (letter ∷ (dotted r k).text) (buffer text.new result) }
{
    let mut place = put_byte(text, at, letter);
    place = put_number(text, place, r);
    put_labeled(text, place, b".", k)
}

fn put_value(text: &mut [u8], at: usize, kind: u32, r: u32, k: u32) -> usize
    ensures { Wrote (buffer text.old at) (get_or (value_texts r k) kind []) (buffer text.new result) }
{
    match kind {
        CONST_KIND => put_labeled(text, at, b"c", k),
        INPUT_KIND => put_dotted(text, at, b'i', r, k),
        INSTR_KIND => put_dotted(text, at, b'd', r, k),
        OUTPUT_KIND => put_dotted(text, at, b'n', r, k),
        BOOL_KIND if k == 1 => put_text(text, at, b"true"),
        BOOL_KIND => put_text(text, at, b"false"),
        UNDEF_KIND => put_labeled(text, at, b"undef", k),
        _ => at,
    }
}

// A value: kind, region, index.
pub fn value(words: &[u32], text: &mut [u8], c: SheetCursor) -> SheetCursor
    ensures { PutsText value_text words.now c text.old text.new result }
{
    let Some(rest) = words.get(c.at..) else {
        return stop(words, c);
    };
    let [kind, region, index, ..] = rest else {
        return stop(words, c);
    };
    let place = put_value(text, c.place, *kind, *region, *index);
    SheetCursor {
        at: c.at + 3,
        place,
    }
}
