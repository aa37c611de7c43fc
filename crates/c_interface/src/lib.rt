// The public routines for C and Rust, under plain names. Each is lent the one nesting state, and lends its words on: no copy is made.
#![tactic(auto)]

ghost use Rattle.std.specs.Prelude.{◌≡◌, ◌+◌, ◌*◌, ◌<◌};
ghost use Rattle.c_interface.specs.Exported.{AcceptExported, NestExported, WriteExported};
ghost use Rattle.store.specs.Refusals.{refusal_number, refusal_word};

use state_lent::NestState;
use store::refusals::{number, word};
use store::{Refusal, WORDS};

// A refusal's number times 65,536, and its word.
fn refused(why: Refusal) -> u32
    ensures same { result ≡ refusal_number why * 65536 + refusal_word why }
    ensures small { refusal_word why < 65536 }
{
    u32::from(number(why)) * 65536 + u32::from(word(why))
}

fn accept_in_words(bytes: &[u8], words: &mut [u16; WORDS]) -> u32
    ensures { AcceptExported bytes.now words.old words.new result }
{
    match accept::accept(bytes, words) {
        Ok(()) => 0,
        Err(why) => refused(why),
    }
}

fn nest_in_words(bytes: &[u8], words: &mut [u16; WORDS], out: &mut [u32]) -> u64
    ensures { NestExported bytes.now words.old words.new out.old out.new result }
{
    match nester::nest(bytes, words, out) {
        Ok(n) => u64::from(n),
        Err(why) => u64::from(number(why)) * 4294967296 + u64::from(word(why)),
    }
}

fn write_in_words(words: &mut [u16; WORDS], out: &mut [u8]) -> u32
    ensures { WriteExported words.old words.new out.old out.new result }
{
    match store::write_store(words, out) {
        Ok(n) => u32::from(n),
        Err(why) => refused(why),
    }
}

// 0 for a record, which then stands in the state's words; else the refusal's number, 1 to 8, times 65,536, and its word.
#[unsafe(no_mangle)]
pub extern "C" fn rukvetta_accept(bytes: &[u8], state: &mut NestState) -> u32
    ensures { AcceptExported bytes.now state.old.words state.new.words result }
{
    accept_in_words(bytes, &mut state.words)
}

// How many words the sheet has, which then stand in front of `out`; else the refusal's number, 1 to 11, times 4,294,967,296, and its word.
#[unsafe(no_mangle)]
pub extern "C" fn rukvetta_nest(bytes: &[u8], state: &mut NestState, out: &mut [u32]) -> u64
    ensures { NestExported
        bytes.now state.old.words state.new.words out.old out.new result }
{
    nest_in_words(bytes, &mut state.words, out)
}

// How many bytes the store of the state's record has, which then stand in front of `out`; else the refusal's number, 4 or 10, times 65,536.
// The state is as it was.
#[unsafe(no_mangle)]
pub extern "C" fn rukvetta_write(state: &mut NestState, out: &mut [u8]) -> u32
    ensures { WriteExported state.old.words state.new.words out.old out.new result }
{
    write_in_words(&mut state.words, out)
}
