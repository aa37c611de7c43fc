// The fields of a line, and lists of them.
ghost use Rattle.std.specs.Prelude.{◌≡◌, List, ℕ, get_or, eqb};
ghost use Rattle.nesting.specs.SheetNumbers.{letter_m};
ghost use Rattle.text_cursor.specs.Texts.{say, ◌then◌};
ghost use Rattle.text_fields.specs.Fields.{field_within, list_within, field_text, list_text, none_text, item_head};
ghost use Rattle.text_fields.specs.Fields.{merge_head};
ghost use Rattle.text_cursor.specs.Texts.{plain_text};
ghost use Rattle.text_cursor.specs.WordsToText.{PutsText, PutsWithin};

use nesting::{LETTER_F, LETTER_M, LETTER_T, LETTER_U};
use text_cursor::cursor::{SheetCursor, next_word, number, say, skip, stop, value};

// What a field is. Lists hold fields and fields hold lists, so a closure for the field would have to hand itself on.
#[derive(Clone, Copy)]
pub enum Field {
    Number,
    Value,
    Item,
    Condition,
}

// An item up to its reads: region.index/opcode/type/
fn item_head(words: &[u32], text: &mut [u8], c: SheetCursor) -> SheetCursor
    ensures { PutsText item_head words.now c text.old text.new result }
{
    let mut d = number(words, text, c);
    d = say(text, d, b".");
    d = number(words, text, d);
    d = say(text, d, b"/");
    d = number(words, text, d);
    d = say(text, d, b"/");
    d = number(words, text, d);
    say(text, d, b"/")
}

// Whether a condition has parts.
fn is_merge(words: &[u32], c: SheetCursor) -> bool
    ensures { result ≡ eqb (get_or words.now c.at 0) letter_m }
{
    words.get(c.at) == Some(&LETTER_M)
}

// A condition without parts.
fn plain_condition(words: &[u32], text: &mut [u8], c: SheetCursor) -> SheetCursor
    ensures { PutsText plain_text words.now c text.old text.new result }
{
    let Some((letter, next)) = next_word(words, c) else {
        return stop(words, c);
    };
    match letter {
        LETTER_T => say(text, next, b"t"),
        LETTER_F => say(text, next, b"f"),
        LETTER_U => say(text, next, b"u"),
        _ => stop(words, c),
    }
}

// A condition up to its parts: m, the node and a bracket.
fn merge_head(words: &[u32], text: &mut [u8], c: SheetCursor) -> SheetCursor
    ensures { PutsText merge_head words.now c text.old text.new result }
{
    let mut d = skip(words, c);
    d = say(text, d, b"m");
    d = number(words, text, d);
    say(text, d, b"[")
}

#[cycle(put_field_put_list)]
fn put_field(words: &[u32], text: &mut [u8], c: SheetCursor, kind: Field) -> SheetCursor
    ensures { PutsWithin 0 (λ depth. field_within depth kind) words.now c text.old text.new result }
{
    match kind {
        Field::Number => number(words, text, c),
        Field::Value => value(words, text, c),
        Field::Item => {
            let d = item_head(words, text, c);
            put_list(words, text, d, Field::Value)
        }
        Field::Condition => {
            if is_merge(words, c) {
                let mut d = merge_head(words, text, c);
                d = put_list(words, text, d, Field::Condition);
                say(text, d, b"]")
            } else {
                plain_condition(words, text, c)
            }
        }
    }
}

// An empty list: `-`, but nothing between a condition's brackets.
fn none(text: &mut [u8], c: SheetCursor, kind: Field) -> SheetCursor
    ensures { (ws : List ℕ) → PutsText (say (none_text kind)) ws c text.old text.new result }
{
    match kind {
        Field::Condition => c,
        _ => say(text, c, b"-"),
    }
}

// A count, then as many fields, joined by commas.
#[cycle(put_field_put_list)]
fn put_list(words: &[u32], text: &mut [u8], c: SheetCursor, kind: Field) -> SheetCursor
    ensures { PutsWithin 1 (λ depth. list_within depth kind) words.now c text.old text.new result }
{
    let Some((n, first)) = next_word(words, c) else {
        return stop(words, c);
    };
    if n == 0 {
        return none(text, first, kind);
    }
    let mut d = put_field(words, text, first, kind);
    for _k in 1..n {
        if words.len() < d.at {
            return d;
        }
        d = say(text, d, b",");
        d = put_field(words, text, d, kind);
    }
    d
}

pub fn labeled(
    words: &[u32],
    text: &mut [u8],
    c: SheetCursor,
    label: &[u8],
    kind: Field,
) -> SheetCursor
    ensures { PutsText (say label.now then field_text kind)
        words.now c text.old text.new result }
{
    let d = say(text, c, label);
    put_field(words, text, d, kind)
}

pub fn listed(
    words: &[u32],
    text: &mut [u8],
    c: SheetCursor,
    label: &[u8],
    kind: Field,
) -> SheetCursor
    ensures { PutsText (say label.now then list_text kind)
        words.now c text.old text.new result }
{
    let d = say(text, c, label);
    put_list(words, text, d, kind)
}
