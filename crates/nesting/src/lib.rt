// The numbers of a sheet's words, 32 bits each (document 01, "The printed sheet"); nothing is computed here. They stay numbers:
// interface/constants gives them to callers in C.
#![tactic(auto)]

// What leads a line.
pub const LEAD_REGION: u32 = 0;

pub const LEAD_BLOCK: u32 = 1;

pub const LEAD_SELECT: u32 = 2;

pub const LEAD_LOOP: u32 = 3;

pub const LEAD_EXIT: u32 = 4;

pub const LEAD_DEFER: u32 = 5;

// The kinds of a select.
pub const KIND_BOOL: u32 = 0;

pub const KIND_NUM: u32 = 1;

// The letters of a condition.
pub const LETTER_T: u32 = 1;

pub const LETTER_F: u32 = 2;

pub const LETTER_U: u32 = 3;

pub const LETTER_M: u32 = 4;

// The outcomes.
pub const OUTCOME_UNTOUCHED: u32 = 0;

pub const OUTCOME_WHOLE: u32 = 1;

pub const OUTCOME_CLOSED: u32 = 2;

pub const OUTCOME_LEFTOVER: u32 = 3;

// The target Return.
pub const RETURN_WORD: u32 = 65535;

// The kinds of values.
pub const CONST_KIND: u32 = 0;

pub const INPUT_KIND: u32 = 1;

pub const INSTR_KIND: u32 = 2;

pub const OUTPUT_KIND: u32 = 3;

pub const BOOL_KIND: u32 = 4;

pub const UNDEF_KIND: u32 = 5;
