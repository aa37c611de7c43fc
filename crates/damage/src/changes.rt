// Changed stores, and how many of their answers are the listed ones.
ghost use Rattle.std.specs.Prelude.{◌≡◌, ◌+◌, ◌-◌, ◌≤◌, ◌<◌, length};
ghost use Rattle.vectors.specs.Tally.{tally_of};
ghost use Rattle.damage.specs.Answers.{bit_right, length_as_listed};
ghost use Rattle.damage.specs.Changes.{flipped, mended, bit_changed};

use super::answers::{answer_of, is_listed};
use store::WORDS;
use vectors::{TEXT, Tally, told};

fn flip(mut block: [u8; 512], bit: usize) -> [u8; 512]
    requires { bit < 4096 }
    ensures { result ≡ flipped block bit }
{
    block[bit / 8] ^= 1u8 << (bit % 8);
    block
}

// Makes the check right again.
fn mend(mut block: [u8; 512]) -> [u8; 512]
    ensures { result ≡ mended block }
{
    let [a, b, c, d] = store::check_of(&block, 0).to_le_bytes();
    block[508] = a;
    block[509] = b;
    block[510] = c;
    block[511] = d;
    block
}

fn change(block: [u8; 512], bit: usize, right_check: bool) -> [u8; 512]
    requires { bit < 4096 }
    ensures { result ≡ bit_changed right_check block bit }
{
    let changed = flip(block, bit);
    if right_check { mend(changed) } else { changed }
}

// Each bit of a block in a range.
pub fn bits(
    from: usize,
    to: usize,
    right_check: bool,
    block: [u8; 512],
    answers: &[u8],
    words: &mut [u16; WORDS],
    out: &mut [u8; TEXT],
) -> Tally
    requires { (from ≤ to) × (to ≤ 4096) }
    ensures { result ≡ tally_of (bit_right right_check block answers.now from) (to - from) }
{
    let mut t = Tally {
        agree: 0,
        differ: 0,
    };
    for bit in from..to {
        let b = change(block, bit, right_check);
        let a = answer_of(&b, words, out);
        t = told(t, is_listed(a, answers, bit - from));
    }
    t
}

// Each length up to the whole.
pub fn lengths(
    bytes: &[u8],
    answers: &[u8],
    words: &mut [u16; WORDS],
    out: &mut [u8; TEXT],
) -> Tally
    ensures { result ≡ tally_of (length_as_listed bytes.now answers.now) (length bytes.now + 1) }
{
    let mut t = Tally {
        agree: 0,
        differ: 0,
    };
    // Of `0..=` the check was not found to know which turn is the last.
    for n in 0..bytes.len() + 1 {
        let a = answer_of(&bytes[..n], words, out);
        t = told(t, is_listed(a, answers, n));
    }
    t
}
