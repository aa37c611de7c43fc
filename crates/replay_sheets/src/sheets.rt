// Listed sheets: what nesting leaves in lent words, and the text that is printed, beside the listed words and text.
ghost use Rattle.std.specs.Prelude.{◌≡◌, ◌*◌, ◌≤◌, ◌<◌, length, get_or};
ghost use Rattle.vectors.specs.Same.{same_list};
ghost use Rattle.replay_sheets.specs.Sheets.{lent_words, words_from_bytes, put_over, is_nested};

use store::WORDS;
use vectors::STORE;

// The words that are lent, and bytes for the text: sixteen for each word are room for every sheet.
const LENT: usize = 16384;

pub const PRINTED: usize = 262144;

fn lend() -> [u32; LENT]
    ensures { result ≡ lent_words }
{
    [2779096485; LENT]
}

// What has to stand at place i: a listed word, the highest byte first, or what was lent.
fn word_at(lent: &[u32], listed: &[u8], i: usize) -> u32
    requires { i < length lent.now }
    ensures { result ≡ get_or (put_over (words_from_bytes listed.now) lent.now) i 0 }
{
    if listed.len() / 4 <= i {
        return lent[i];
    }
    let at = 4 * i;
    u32::from_be_bytes([listed[at], listed[at + 1], listed[at + 2], listed[at + 3]])
}

// Whether words are the listed ones, and behind them as lent.
fn is_written(out: &[u32], lent: &[u32], listed: &[u8]) -> bool
    requires { (length out.now ≡ length lent.now) × (length listed.now ≤ 4 * length lent.now) }
    ensures { result ≡ same_list out.now (put_over (words_from_bytes listed.now) lent.now) }
{
    for i in 0..out.len() {
        if out[i] != word_at(lent, listed, i) {
            return false;
        }
    }
    true
}

// Whether a store leaves the listed words, which are a line of digits, and prints the listed text, which stands behind that
// line.
pub fn is_nested(store: &[u8], listed: &[u8], words: &mut [u16; WORDS], text: &mut [u8]) -> bool
    requires { (length listed.now ≤ 65536) × (262144 ≤ length text.old) }
    ensures { result ≡ is_nested store.now listed.now }
{
    let lent = lend();
    let mut out = lent;
    let mut expected = [0u8; STORE];
    let Ok(n) = text_nest::print(store, words, &mut out, text) else {
        return false;
    };
    let end = vectors::behind(listed, b'\n');
    let m = vectors::decode(&listed[..end], &mut expected);
    is_written(&out, &lent, &expected[..m]) && check::same(&text[..n], &listed[end..])
}
