// The nesting state as an outer function is lent it: one array, in which all of a nesting stands (docs/STATE.md).
#![tactic(auto)]

use store::WORDS;

#[repr(C)]
#[derive(Drop)]
pub struct NestState {
    pub words: [u16; WORDS],
}
