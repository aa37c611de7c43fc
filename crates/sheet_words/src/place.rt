// Words put into the lent words from the back. Where no word is lent nothing is stored: so an empty slice measures.
ghost use Rattle.std.specs.Prelude.{◌≡◌, [], ◌∷◌};
ghost use Rattle.nesting.specs.Nesting.{plain};
ghost use Rattle.sheet_words.specs.PutInFront as words;

// The end of what is still to be put; and a note beside it, no Option: whether a value was met that counts for `twice`.
#[derive(Clone, Copy)]
pub struct Place {
    pub end: usize,
    pub twice: bool,
}

pub fn put(out: &mut [u32], at: Place, x: u32) -> Place
    ensures { words.Puts out.old at (plain (x ∷ [])) out.new result }
{
    let end = at.end.saturating_sub(1);
    if end < out.len() {
        out[end] = x;
    }
    Place { end, ..at }
}

pub fn put_word(out: &mut [u32], at: Place, x: u16) -> Place
    ensures { words.Puts out.old at (plain (x ∷ [])) out.new result }
{
    put(out, at, u32::from(x))
}

pub fn put_three(out: &mut [u32], at: Place, x: u16, y: u16, z: u16) -> Place
    ensures { words.Puts out.old at (plain (x ∷ y ∷ z ∷ [])) out.new result }
{
    let third = put_word(out, at, z);
    let second = put_word(out, third, y);
    put_word(out, second, x)
}

pub fn note(at: Place, twice: bool) -> Place
    ensures { result ≡ words.noted at twice }
{
    Place {
        twice: at.twice || twice,
        ..at
    }
}
