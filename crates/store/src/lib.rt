// A store of blocks, checked and loaded into lent words: refusals 1 to 3, and 4 for W.
#![tactic(auto)]

ghost use Rattle.std.specs.Prelude.{◌≡◌, ◌++◌, ℕ, ◌+◌, ◌*◌, ◌/◌, ◌≤◌, ◌<◌, length, drop};
ghost use Rattle.format.specs.Store.{pair, weighted, blocks_checked, word_at, all_zero, count_right, store_words};
ghost use Rattle.store.specs.Loaded.{answered, words_counted, Loads};
ghost use Rattle.store.specs.Block.{block_checked, byte_place};
ghost use Rattle.meaning.specs.Lists.{tabulate};

pub mod layout;
pub mod refusals;
pub mod write;

pub use layout::WORDS;
pub use refusals::Refusal;
pub use write::write_store;

// Two bytes, little-endian.
fn pair_at(bytes: &[u8], at: usize) -> u16
    requires { at + 1 < length bytes.now }
    ensures { result ≡ pair bytes.now at }
{
    u16::from_le_bytes([bytes[at], bytes[at + 1]])
}

// The sum over a block's bytes 0 to 507 of byte times (place + 1).
pub fn check_of(bytes: &[u8], at: usize) -> u32
    requires { at + 508 ≤ length bytes.now }
    ensures { result ≡ weighted bytes.now at 508 }
{
    let mut sum: u32 = 0;
    for place in 0..508 {
        sum += u32::from(bytes[at + place]) * ((place + 1) as u32);
    }
    sum
}

// One block: its number, then its check.
fn block_checked(bytes: &[u8], b: usize) -> Result<(), Refusal>
    requires { (b < 16) × (512 * b + 512 ≤ length bytes.now) }
    ensures { answered result ≡ block_checked bytes.now b }
{
    let at = 512 * b;
    let number = usize::from(pair_at(bytes, at));
    let low = u32::from(pair_at(bytes, at + 508));
    let high = u32::from(pair_at(bytes, at + 510));
    let stated = low + 65536 * high;
    let sum = check_of(bytes, at);
    if number != b {
        return Err(Refusal::WrongBlockNumber(b as u16));
    }
    if stated != sum {
        return Err(Refusal::WrongCheck(b as u16));
    }
    Ok(())
}

// The blocks in turn, up to the first that is wrong.
fn blocks_checked(bytes: &[u8], n: usize) -> Result<(), Refusal>
    requires { (n ≤ 16) × (512 * n ≤ length bytes.now) }
    ensures { answered result ≡ blocks_checked bytes.now n }
{
    for b in 0..n {
        block_checked(bytes, b)?;
    }
    Ok(())
}

// The byte at which the next word begins: from the last of a block's 253 words, byte 2 of the next block.
fn next_place(at: usize) -> usize
    requires { at < 8192 }
    ensures { (j : ℕ) → at ≡ byte_place j → result ≡ byte_place (j + 1) }
{
    if at % 512 == 506 { at + 8 } else { at + 2 }
}

// Whether the words from a place among the words on are zero.
fn all_zero(bytes: &[u8], from: usize, count: usize) -> bool
    requires { (length bytes.now ≤ 8192) × (from + count ≤ 253 * (length bytes.now / 512)) }
    ensures { result ≡ all_zero bytes.now from count }
{
    let mut at = 512 * (from / 253) + 2 + 2 * (from % 253);
    for n in 0..count {
        if pair_at(bytes, at) != 0 {
            return false;
        }
        at = next_place(at);
    }
    true
}

// W against the number of blocks, and the words after W.
fn count_right(bytes: &[u8], n: usize, w: u16) -> bool
    requires { (length bytes.now ≤ 8192) × (n ≡ length bytes.now / 512) }
    ensures { result ≡ count_right bytes.now n w }
{
    let used = usize::from(w);
    used != 0 && (used + 252) / 253 == n && all_zero(bytes, used, 253 * n - used)
}

// W, or the store's refusal.
fn words_used(bytes: &[u8]) -> Result<u16, Refusal>
    ensures { answered result ≡ words_counted (store_words bytes.now) }
{
    let length = bytes.len();
    if length == 0 || 8192 < length || length % 512 != 0 {
        return Err(Refusal::WrongLength);
    }
    let n = length / 512;
    blocks_checked(bytes, n)?;
    let w = pair_at(bytes, 2);
    if count_right(bytes, n, w) {
        Ok(w)
    } else {
        Err(Refusal::WrongWordCount)
    }
}

// The first w words of a store, in front of the lent words.
fn copy_words(bytes: &[u8], words: &mut [u16; WORDS], w: u16)
    requires { (length bytes.now ≤ 8192) × (w ≤ 253 * (length bytes.now / 512)) }
    ensures { words.new ≡ tabulate w (word_at bytes.now) ++ drop w words.old }
{
    let mut at = 2;
    for j in 0..usize::from(w) {
        words[j] = pair_at(bytes, at);
        at = next_place(at);
    }
}

// The words of a store, in front of the lent words, or its refusal with the words as lent.
pub fn load(bytes: &[u8], words: &mut [u16; WORDS]) -> Result<u16, Refusal>
    ensures { Loads bytes.now words.old words.new result }
{
    let w = words_used(bytes)?;
    copy_words(bytes, words, w);
    Ok(w)
}
