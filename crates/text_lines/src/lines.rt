// The lines of a sheet: each kind a function of its own, since its labels and fields in their order are its grammar.
ghost use Rattle.nesting.specs.decoding.Decode.{decode_region, decode_block, decode_select, decode_loop, decode_exit, decode_defer};
ghost use Rattle.nesting.specs.decoding.Decode.{line_by, decode_line};
ghost use Rattle.text_cursor.specs.Lines.{shown, fields_text, line_text, decode_first, first_text, decoded_sheet_text};
ghost use Rattle.text_cursor.specs.Texts.{say, ◌then◌, skip_text, target_text, outcome_text};
ghost use Rattle.text_cursor.specs.WordsToText.{PutsText, PutsOn};

use nesting::{
    LEAD_BLOCK, LEAD_DEFER, LEAD_EXIT, LEAD_LOOP, LEAD_REGION, LEAD_SELECT, OUTCOME_CLOSED,
    OUTCOME_LEFTOVER, OUTCOME_UNTOUCHED, OUTCOME_WHOLE, RETURN_WORD,
};
use text_cursor::cursor::{SheetCursor, either, next_word, number, say, skip, stop};
use text_fields::fields::{Field, labeled, listed};

fn region(words: &[u32], text: &mut [u8], c: SheetCursor) -> SheetCursor
    ensures { PutsText (shown fields_text decode_region) words.now c text.old text.new result }
{
    let mut d = labeled(words, text, c, b"region ", Field::Number);
    d = listed(words, text, d, b" in ", Field::Number);
    d = listed(words, text, d, b" kids ", Field::Number);
    listed(words, text, d, b" out ", Field::Value)
}

fn block(words: &[u32], text: &mut [u8], c: SheetCursor) -> SheetCursor
    ensures { PutsText (shown fields_text decode_block) words.now c text.old text.new result }
{
    let d = labeled(words, text, c, b"block ", Field::Number);
    listed(words, text, d, b" ", Field::Item)
}

fn select(words: &[u32], text: &mut [u8], c: SheetCursor) -> SheetCursor
    ensures { PutsText (shown fields_text decode_select) words.now c text.old text.new result }
{
    let mut d = labeled(words, text, c, b"select ", Field::Number);
    d = either(words, text, d, b" bool", b" num");
    d = labeled(words, text, d, b" ", Field::Value);
    d = listed(words, text, d, b" cases ", Field::Number);
    listed(words, text, d, b" out ", Field::Number)
}

fn loop_line(words: &[u32], text: &mut [u8], c: SheetCursor) -> SheetCursor
    ensures { PutsText (shown fields_text decode_loop) words.now c text.old text.new result }
{
    let mut d = labeled(words, text, c, b"loop ", Field::Number);
    d = listed(words, text, d, b" in ", Field::Value);
    d = labeled(words, text, d, b" body ", Field::Number);
    labeled(words, text, d, b" repeat ", Field::Value)
}

fn exit(words: &[u32], text: &mut [u8], c: SheetCursor) -> SheetCursor
    ensures { PutsText (shown fields_text decode_exit) words.now c text.old text.new result }
{
    let mut d = labeled(words, text, c, b"exit ", Field::Number);
    d = labeled(words, text, d, b" ", Field::Number);
    listed(words, text, d, b" in ", Field::Value)
}

// The target Return is 65,535.
fn target(words: &[u32], text: &mut [u8], c: SheetCursor) -> SheetCursor
    ensures { PutsText target_text words.now c text.old text.new result }
{
    let Some((region, next)) = next_word(words, c) else {
        return stop(words, c);
    };
    if region == RETURN_WORD {
        say(text, next, b"return")
    } else {
        number(words, text, c)
    }
}

fn defer(words: &[u32], text: &mut [u8], c: SheetCursor) -> SheetCursor
    ensures { PutsText (shown fields_text decode_defer) words.now c text.old text.new result }
{
    let mut d = labeled(words, text, c, b"defer ", Field::Number);
    d = say(text, d, b" to ");
    d = target(words, text, d);
    d = labeled(words, text, d, b" count ", Field::Number);
    d = listed(words, text, d, b" in ", Field::Value);
    labeled(words, text, d, b" if ", Field::Condition)
}

// By the word that leads the line.
fn line_by(words: &[u32], text: &mut [u8], c: SheetCursor, lead: u32) -> SheetCursor
    ensures { PutsText (shown fields_text (line_by lead)) words.now c text.old text.new result }
{
    match lead {
        LEAD_REGION => region(words, text, c),
        LEAD_BLOCK => block(words, text, c),
        LEAD_SELECT => select(words, text, c),
        LEAD_LOOP => loop_line(words, text, c),
        LEAD_EXIT => exit(words, text, c),
        LEAD_DEFER => defer(words, text, c),
        _ => stop(words, c),
    }
}

pub fn put_line(words: &[u32], text: &mut [u8], c: SheetCursor) -> SheetCursor
    ensures { PutsOn (shown line_text decode_line) words.now c text.old text.new result }
{
    let Some((lead, next)) = next_word(words, c) else {
        return stop(words, c);
    };
    let d = line_by(words, text, next, lead);
    say(text, d, b"\n")
}

// A word that is not shown, and a label.
fn unshown(words: &[u32], text: &mut [u8], c: SheetCursor, label: &[u8]) -> SheetCursor
    ensures { PutsText (skip_text then say label.now) words.now c text.old text.new result }
{
    let d = skip(words, c);
    say(text, d, label)
}

// The outcome and its figure, which exists for whole and closed.
fn outcome(words: &[u32], text: &mut [u8], c: SheetCursor) -> SheetCursor
    ensures { PutsText outcome_text words.now c text.old text.new result }
{
    let Some((outcome, next)) = next_word(words, c) else {
        return stop(words, c);
    };
    match outcome {
        OUTCOME_UNTOUCHED => unshown(words, text, next, b"untouched figure -"),
        OUTCOME_WHOLE => labeled(words, text, next, b"whole figure ", Field::Number),
        OUTCOME_CLOSED => labeled(words, text, next, b"closed figure ", Field::Number),
        OUTCOME_LEFTOVER => unshown(words, text, next, b"leftover figure -"),
        _ => stop(words, c),
    }
}

pub fn put_first_line(words: &[u32], text: &mut [u8], c: SheetCursor) -> SheetCursor
    ensures { PutsText (shown first_text decode_first) words.now c text.old text.new result }
{
    let mut d = outcome(words, text, c);
    d = labeled(words, text, d, b" attempts ", Field::Number);
    either(words, text, d, b" twice 0\n", b" twice 1\n")
}

// Line 1, then the other lines to the last word. Each turn goes on by as many words as its line has, so there is no range.
pub fn put_sheet(words: &[u32], text: &mut [u8]) -> SheetCursor
    ensures { PutsText decoded_sheet_text
        words.now (record { at = 0; place = 0 }) text.old text.new result }
{
    let mut c = put_first_line(words, text, SheetCursor { at: 0, place: 0 });
    while c.at < words.len() {
        c = put_line(words, text, c);
    }
    c
}
