// The first word of each line of a sheet, and the word of a select's kind, as the writers of lines put them: a word of 16 bits each.
// They are only put, never told apart: so no enum.
use nesting::{
    KIND_BOOL, KIND_NUM, LEAD_BLOCK, LEAD_DEFER, LEAD_EXIT, LEAD_LOOP, LEAD_REGION, LEAD_SELECT,
};

pub const REGION_LINE: u16 = LEAD_REGION as u16;

pub const BLOCK_LINE: u16 = LEAD_BLOCK as u16;

pub const SELECT_LINE: u16 = LEAD_SELECT as u16;

pub const LOOP_LINE: u16 = LEAD_LOOP as u16;

pub const EXIT_LINE: u16 = LEAD_EXIT as u16;

pub const DEFER_LINE: u16 = LEAD_DEFER as u16;

pub const BOOL_SELECT: u16 = KIND_BOOL as u16;

pub const NUM_SELECT: u16 = KIND_NUM as u16;
