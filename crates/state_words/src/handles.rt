// A handle: the number of a cell, which stands for a list, of child nodes, of a select's cases or of the inputs that a loop keeps. It is no
// region, no node and no place in the words.
#[derive(Clone, Copy, PartialEq, Eq)]
pub struct Handle(pub u16);

// The empty list: no cell has this number, and the words of the state hold it.
pub const EMPTY: Handle = Handle(0);
