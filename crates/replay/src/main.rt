// Replays a list of stores with their answers, read from standard input, and prints how many agree. All arrays have fixed lengths: there is
// no heap.
#![tactic(auto)]

ghost use Rattle.std.specs.Prelude.{◌≡◌, ◌≤◌, [], ◌∷◌, length};
ghost use Rattle.vectors.specs.Reading.{Reads};
ghost use Rattle.replay.specs.Agrees.{of_sheet, is_shown, agrees};
ghost use Rattle.replay.specs.Replays.{Replays};

use replay_sheets::sheets::{PRINTED, is_nested};
use std::io;
use std::io::Read;
use store::WORDS;
use streams::read_input;
use vectors::{STORE, TEXT, Tally, VectorReader};

// Whether what is shown of a store is the listed text.
fn is_shown(store: &[u8], listed: &[u8], words: &mut [u16; WORDS], out: &mut [u8]) -> bool
    requires { 65536 ≤ length out.old }
    ensures { result ≡ is_shown store.now listed.now }
{
    let Ok(n) = text_show::show(store, words, out) else {
        return false;
    };
    check::same(&out[..n], listed)
}

// Whether the word before the store ends in t, as `nest` does: then the answer is a sheet's, with its words.
fn of_sheet(vector: &[u8]) -> bool
    ensures { result ≡ of_sheet vector.now }
{
    let at = vectors::behind(vector, b' ');
    at >= 2 && vector[at - 2] == b't'
}

// Whether a vector's listed answer is right.
fn agrees(
    vector: &[u8],
    bytes: &mut [u8; STORE],
    words: &mut [u16; WORDS],
    out: &mut [u8; PRINTED],
) -> bool
    ensures { result ≡ agrees vector.now }
{
    if vector.len() >= TEXT {
        return false;
    }
    let at = vectors::behind(vector, b' ');
    let rest = &vector[at..];
    let end = vectors::behind(rest, b'\n');
    let n = vectors::decode(&rest[..end], bytes);
    if of_sheet(vector) {
        is_nested(&bytes[..n], &rest[end..], words, out)
    } else {
        is_shown(&bytes[..n], &rest[end..], words, out)
    }
}

// The lent arrays go together through this and the next function; agrees takes them apart, so they are no struct.

// One byte of the list; the dot behind a vector has its store answered and compared.
fn fed(
    r: VectorReader,
    b: u8,
    text: &mut [u8; TEXT],
    bytes: &mut [u8; STORE],
    words: &mut [u16; WORDS],
    out: &mut [u8; PRINTED],
) -> VectorReader
    requires { r.size ≤ 65536 }
    ensures { Reads agrees r (b ∷ []) text.old text.new result }
{
    if vectors::ends(r, b) {
        vectors::counted(r, agrees(&text[..r.size], bytes, words, out))
    } else {
        vectors::keep(r, b, text)
    }
}

fn fed_all(
    r: VectorReader,
    chunk: &[u8],
    text: &mut [u8; TEXT],
    bytes: &mut [u8; STORE],
    words: &mut [u16; WORDS],
    out: &mut [u8; PRINTED],
) -> VectorReader
    requires { r.size ≤ 65536 }
    ensures { Reads agrees r chunk.now text.old text.new result }
{
    let mut reader = r;
    for b in chunk {
        reader = fed(reader, *b, text, bytes, words, out);
    }
    reader
}

// The whole list, in at most so many chunks.
fn replayed<R: Read>(list: &mut R, turns: u32) -> Tally
    ensures { Replays (R.remaining list.old) (R.remaining list.new) result }
{
    let mut chunk = [0u8; 65536];
    let mut text = [0u8; TEXT];
    let mut bytes = [0u8; STORE];
    let mut words = [0u16; WORDS];
    let mut out = [0u8; PRINTED];
    let mut reader = vectors::start();
    for _turn in 0..turns {
        let n = match read_input(list, &mut chunk) {
            Ok(n) => n,
            Err(failed) => failed.size,
        };
        if n == 0 {
            return reader.tally;
        }
        reader = fed_all(
            reader,
            &chunk[..n],
            &mut text,
            &mut bytes,
            &mut words,
            &mut out,
        );
    }
    reader.tally
}

fn main(rt: HostRuntime) -> io::Result<()> {
    let tally = replayed(&mut rt.stdin(), 1024);
    println!(rt; "{} agree, {} differ", tally.agree, tally.differ)
}
