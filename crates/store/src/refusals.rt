// The refusals (document 01, "What turns a record away"): each reason with its word, where it has one, and the number that a user reads.
ghost use Rattle.std.specs.Prelude.{◌≡◌};
ghost use Rattle.store.specs.Refusals.{refusal_number, refusal_word};

// The numbers stand by name, since interface/constants gives them to callers in C.
pub const WRONG_LENGTH: u16 = 1;

pub const WRONG_BLOCK_NUMBER: u16 = 2;

pub const WRONG_CHECK: u16 = 3;

pub const WRONG_WORD_COUNT: u16 = 4;

pub const OUT_OF_RANGE: u16 = 5;

pub const WRONG_REFERENCE: u16 = 6;

pub const WRONG_TYPE: u16 = 7;

pub const EXIT_NAMED_TWICE: u16 = 8;

pub const TOO_MANY: u16 = 9;

pub const TOO_FEW_WORDS: u16 = 10;

pub const FIGURE_TOO_LARGE: u16 = 11;

// No number of document 01: what a proof shows never to come.
pub const NEVER: u16 = 0;

// 2 and 3 have the block, 5 to 8 the region.
#[derive(Clone, Copy, Debug, PartialEq, Eq)]
pub enum Refusal {
    WrongLength,
    WrongBlockNumber(u16),
    WrongCheck(u16),
    WrongWordCount,
    OutOfRange(u16),
    WrongReference(u16),
    WrongType(u16),
    ExitNamedTwice(u16),
    TooMany,
    TooFewWords,
    FigureTooLarge,
    Never(u16),
}

pub fn number(why: Refusal) -> u16
    ensures { result ≡ refusal_number why }
{
    match why {
        Refusal::WrongLength => WRONG_LENGTH,
        Refusal::WrongBlockNumber(_) => WRONG_BLOCK_NUMBER,
        Refusal::WrongCheck(_) => WRONG_CHECK,
        Refusal::WrongWordCount => WRONG_WORD_COUNT,
        Refusal::OutOfRange(_) => OUT_OF_RANGE,
        Refusal::WrongReference(_) => WRONG_REFERENCE,
        Refusal::WrongType(_) => WRONG_TYPE,
        Refusal::ExitNamedTwice(_) => EXIT_NAMED_TWICE,
        Refusal::TooMany => TOO_MANY,
        Refusal::TooFewWords => TOO_FEW_WORDS,
        Refusal::FigureTooLarge => FIGURE_TOO_LARGE,
        Refusal::Never(_) => NEVER,
    }
}

pub fn word(why: Refusal) -> u16
    ensures { result ≡ refusal_word why }
{
    match why {
        Refusal::WrongLength => 0,
        Refusal::WrongBlockNumber(block) | Refusal::WrongCheck(block) => block,
        Refusal::WrongWordCount => 0,
        Refusal::OutOfRange(region)
        | Refusal::WrongReference(region)
        | Refusal::WrongType(region)
        | Refusal::ExitNamedTwice(region)
        | Refusal::Never(region) => region,
        Refusal::TooMany | Refusal::TooFewWords | Refusal::FigureTooLarge => 0,
    }
}
