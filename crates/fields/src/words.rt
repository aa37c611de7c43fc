// Words of the lent array by place; a place beyond it holds 0, and a list there is empty.
ghost use Rattle.std.specs.Prelude.{◌≡◌};
ghost use Rattle.format.specs.Read.{value_from_words};
ghost use Rattle.fields.specs.Shape.{value_is};
ghost use Rattle.fields.specs.ItemsAndPlaces.{placed, word_item, value_item, behind_words, behind_values, again};

use super::shape::Value;
use reading::kinds::{BOOL_KIND, CONST_KIND, INPUT_KIND, INSTR_KIND};
use reading::words::stands_before;
use store::WORDS;
use store::layout::{BEYOND, word_at};

// A place that 16 bits can name; every other is the place of a list that is not there.
pub fn place(p: usize) -> u16
    ensures { result ≡ placed p }
{
    p.min(BEYOND as usize) as u16
}

// Item k of a list of words: its count stands at p, its items behind it.
pub fn word_item(w: &[u16; WORDS], p: u16, k: u16) -> u16
    ensures { result ≡ word_item w.now p k }
{
    if k < word_at(w, p as usize) {
        word_at(w, (p as usize) + 1 + (k as usize))
    } else {
        0
    }
}

// A value by its three words: kind, region, index.
fn value_of(kind: u16, region: u16, index: u16) -> Value
    ensures { value_is result ≡ value_from_words kind region index }
{
    match kind {
        INPUT_KIND => Value::Input(region, index),
        INSTR_KIND => Value::Instr(region, index),
        _ if region != 0 => Value::Nothing,
        CONST_KIND => Value::Const(index),
        BOOL_KIND if index < 2 => Value::Bool(index == 1),
        BOOL_KIND => Value::Nothing,
        _ => Value::Undef(index),
    }
}

// Item k of a list of values.
pub fn value_item(w: &[u16; WORDS], p: u16, k: u16) -> Value
    ensures { value_is result ≡ value_item w.now p k }
{
    if k < word_at(w, p as usize) {
        let at = (p as usize) + 1 + 3 * (k as usize);
        value_of(word_at(w, at), word_at(w, at + 1), word_at(w, at + 2))
    } else {
        Value::Nothing
    }
}

// The place behind a list of words.
pub fn behind_words(w: &[u16; WORDS], p: u16) -> u16
    ensures { result ≡ behind_words w.now p }
{
    place((p as usize) + 1 + (word_at(w, p as usize) as usize))
}

// The place behind a list of values.
pub fn behind_values(w: &[u16; WORDS], p: u16) -> u16
    ensures { result ≡ behind_values w.now p }
{
    place((p as usize) + 1 + 3 * (word_at(w, p as usize) as usize))
}

// Whether item q of a list of words stands among the items before it; what is beyond the list does not.
pub fn stood_before(w: &[u16; WORDS], p: u16, q: u16) -> bool
    ensures { result ≡ again w.now p q }
{
    let from = (p as usize) + 1;
    q < word_at(w, p as usize) && stands_before(w, from, word_at(w, from + (q as usize)), q)
}
