// The kinds of values and of terminators in a record's words (document 01, "store and record"). Numbers: reading only tests them, and its
// definitions (format's Read) take the number. What comes after has enums, Value and Terminator of fields.
pub const CONST_KIND: u16 = 0;

pub const INPUT_KIND: u16 = 1;

pub const INSTR_KIND: u16 = 2;

// The output of a node: in no record.
pub const OUTPUT_KIND: u16 = 3;

pub const BOOL_KIND: u16 = 4;

pub const UNDEF_KIND: u16 = 5;

pub const TERMINATOR_UNREACHABLE: u16 = 0;

pub const TERMINATOR_RETURN: u16 = 1;

pub const TERMINATOR_EXIT: u16 = 2;

pub const TERMINATOR_BRANCH: u16 = 3;

pub const TERMINATOR_BOOL: u16 = 4;

pub const TERMINATOR_NUMBER: u16 = 5;
