// Answers in two bytes each: a refusal's number and its word; 0 and the sum of its text's bytes, by 256, for a record.
ghost use Rattle.std.specs.Prelude.{◌≡◌, length};
ghost use Rattle.format.specs.Accept.{accept};
ghost use Rattle.text_parts.specs.Listing.{shown_text};
ghost use Rattle.damage.specs.Answers.{sum_from, brief, is_listed};

use store::{WORDS, refusals};

#[derive(Clone, Copy, Debug, PartialEq, Eq)]
pub struct Brief {
    pub number: u8,
    pub word: u8,
}

fn sum_of(text: &[u8]) -> u8
    ensures { result ≡ sum_from 0 text.now }
{
    text.iter().fold(0, |sum: u8, b| sum.wrapping_add(*b))
}

// The sum of the text that is shown of a store.
fn shown_sum(bytes: &[u8], words: &mut [u16; WORDS], out: &mut [u8]) -> u8
    requires { length out.old ≡ 65536 }
    ensures { result ≡ sum_from 0 (shown_text (accept bytes.now)) }
{
    let Ok(n) = text_show::show(bytes, words, out) else {
        return 0;
    };
    sum_of(&out[..n])
}

pub fn answer_of(store: &[u8], words: &mut [u16; WORDS], out: &mut [u8]) -> Brief
    requires { length out.old ≡ 65536 }
    ensures { result ≡ brief (accept store.now) }
{
    match accept::accept(store, words) {
        Ok(()) => Brief {
            number: 0,
            word: shown_sum(store, words, out),
        },
        Err(why) => Brief {
            number: (refusals::number(why) % 256) as u8,
            word: (refusals::word(why) % 256) as u8,
        },
    }
}

// Whether an answer is the one at place k of the list.
pub fn is_listed(a: Brief, answers: &[u8], k: usize) -> bool
    ensures { result ≡ is_listed a answers.now k }
{
    k < answers.len() / 2 && answers[2 * k] == a.number && answers[2 * k + 1] == a.word
}
