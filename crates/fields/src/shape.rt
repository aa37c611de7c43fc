// What the accessors answer with.

// Kinds 0, 1, 2, 4 and 5 of document 01; Nothing is what names nothing, and what stands at an index beyond a list:
// the definitions have it as a value too, and 0 as the type that is none.
#[derive(Clone, Copy)]
pub enum Value {
    Const(u16),
    Input(u16, u16),
    Instr(u16, u16),
    Bool(bool),
    Undef(u16),
    Nothing,
}

// `ty` is 0 where there is no output; `reads` is their number.
#[derive(Clone, Copy)]
pub struct Instruction {
    pub opcode: u16,
    pub ty: u16,
    pub cost: u16,
    pub reads: u16,
}

// Kinds 0 to 5; an opcode stands for ExitInvocation only.
#[derive(Clone, Copy)]
pub enum Terminator {
    Unreachable,
    Return,
    ExitInvocation(u16),
    Branch,
    SelectBool,
    SelectNumber,
}
