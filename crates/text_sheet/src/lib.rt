// The words of a sheet as its printed lines, in a lent buffer (document 01, "The printed sheet").
#![tactic(auto)]

ghost use Rattle.std.specs.Prelude.{◌≡◌, take, leb, Err};
ghost use Rattle.meaning.specs.Lists.{pick};
ghost use Rattle.nesting.specs.decoding.Decode.{decode_line};
ghost use Rattle.text_sheet.specs.declared.NotPrinted.TheVariants.{Full};
ghost use Rattle.text_cursor.specs.Lines.{shown, line_text, decode_first, first_text};
ghost use Rattle.text_sheet.specs.Answers.{printed, LinePrinted, SheetPrinted};

use text::BufferFull;
use text_cursor::cursor::SheetCursor;
use text_lines::lines::{put_first_line, put_line, put_sheet};

// The place of the word behind a line, and the line's bytes.
#[derive(Clone, Copy, Debug, PartialEq, Eq)]
pub struct PrintedLine {
    pub next: usize,
    pub bytes: usize,
}

// Full: the buffer is too small, and holds the line's front. NoLine: the words there are no line, and the buffer is as lent.
#[derive(Clone, Copy, Debug, PartialEq, Eq)]
pub enum NotPrinted {
    Full,
    NoLine,
}

fn answer(room: usize, end: SheetCursor) -> Result<PrintedLine, NotPrinted>
    ensures { result ≡ pick (leb end.place room) (printed end.at end.place) (Err Full) }
{
    if end.place <= room {
        Ok(PrintedLine {
            next: end.at,
            bytes: end.place,
        })
    } else {
        Err(NotPrinted::Full)
    }
}

// The next two are alike but for the reader; a closure for it would need a clause on each of its calls, longer than they are.

// Line 1, by the first four words. Whether they are such a line is tried first, in a buffer that keeps nothing of it.
pub fn first_line(words: &[u32], text: &mut [u8]) -> Result<PrintedLine, NotPrinted>
    ensures { LinePrinted (shown first_text decode_first) words.now 0 text.old text.new result }
{
    let start = SheetCursor { at: 0, place: 0 };
    let mut none = [0u8; 1];
    let tried = put_first_line(words, &mut none, start);
    if words.len() < tried.at {
        return Err(NotPrinted::NoLine);
    }
    let end = put_first_line(words, text, start);
    answer(text.len(), end)
}

// Another line, whose words begin at a place.
pub fn line(words: &[u32], at: usize, text: &mut [u8]) -> Result<PrintedLine, NotPrinted>
    ensures { LinePrinted (shown line_text decode_line) words.now at text.old text.new result }
{
    let start = SheetCursor { at, place: 0 };
    let mut none = [0u8; 1];
    let tried = put_line(words, &mut none, start);
    if words.len() < tried.at {
        return Err(NotPrinted::NoLine);
    }
    let end = put_line(words, text, start);
    answer(text.len(), end)
}

fn sheet(words: &[u32], text: &mut [u8]) -> Result<usize, BufferFull>
    ensures { SheetPrinted words.now text.old text.new result }
{
    let mut none = [0u8; 1];
    let tried = put_sheet(words, &mut none);
    if words.len() < tried.at {
        return Ok(0);
    }
    let end = put_sheet(words, text);
    text::finish(text.len(), end.place)
}

// The whole sheet that the first n words are.
pub fn sheet_text(words: &[u32], n: usize, text: &mut [u8]) -> Result<usize, BufferFull>
    ensures { SheetPrinted (take n words.now) text.old text.new result }
{
    sheet(&words[..n.min(words.len())], text)
}
