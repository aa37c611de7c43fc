// Look-ups, the Rust's RegionInputRewrites::rewrite_all, with document 01's mark; and the note `twice`.
ghost use Rattle.std.specs.Prelude.{◌≡◌, ℕ};
ghost use Rattle.state_nodes.specs.RewriteKinds as kinds;
ghost use Rattle.cfg_lookups.specs.LookUps as words;

use state_nodes::rewrites::{RewriteKind, rewrite_kind, rewrite_value};
use state_words::defined::{MOST_REGIONS, note_twice};
use state_words::values::{input_index, input_region, is_held, is_input};
use store::WORDS;

// What a look_up answers; and a note beside it, no Option: whether a marked value was met whose second look_up would change it.
#[derive(Clone, Copy)]
pub struct LookUp {
    pub value: u16,
    pub twice: bool,
}

// Whether the entry of a marked value's region would change it again: it does not renumber it to itself.
#[tactic(auto, unfolding(crate::specs::LookUps::changes_again))]
fn changes_again(w: &[u16; WORDS], v: u16) -> bool
    ensures { result ≡ words.changes_again w.now v }
{
    let r = input_region(v);
    match rewrite_kind(w, r) {
        RewriteKind::NotRewritten => false,
        RewriteKind::ReplaceWith => true,
        _ => rewrite_value(w, r, input_index(v)) != v,
    }
}

// A value that is no input unmarked stays.
#[tactic(auto, unfolding(crate::specs::LookUps::stays))]
fn stays(w: &[u16; WORDS], v: u16) -> LookUp
    ensures { result ≡ words.stays w.now v }
{
    LookUp {
        value: v,
        twice: is_held(v) && changes_again(w, v),
    }
}

// Whether an entry of this kind renumbers an input to x: the look_up ends there.
#[tactic(auto, unfolding(crate::specs::LookUps::renumbers))]
fn renumbers(kind: RewriteKind, x: u16) -> bool
    ensures { (n : ℕ) → kind ≡ kinds.rewrite_kind_of n → result ≡ words.renumbers n x }
{
    kind == RewriteKind::RenumberOrReplaceWith && is_held(x)
}

// An input is looked up until its region has no entry, or it is marked. No chain passes a region twice.
pub fn look_up(w: &[u16; WORDS], v: u16) -> LookUp
    ensures { result ≡ words.look_up w.now v }
{
    let mut x = v;
    for _ in 0..=MOST_REGIONS {
        if !is_input(x) {
            return stays(w, x);
        }
        let r = input_region(x);
        let kind = rewrite_kind(w, r);
        if kind == RewriteKind::NotRewritten {
            break;
        }
        x = rewrite_value(w, r, input_index(x));
        if renumbers(kind, x) {
            break;
        }
    }
    LookUp {
        value: x,
        twice: false,
    }
}

// The step that looks up takes the note.
pub fn look_up_noting(w: &mut [u16; WORDS], v: u16) -> u16
    ensures { words.Rewrites w.old v w.new result }
{
    let x = look_up(w, v);
    if x.twice {
        note_twice(w);
    }
    x.value
}
