// The lent words of a sheet, written from the back, the words that lead its lines, and a value as a sheet shows it. Here and in all crates
// of the sheet the state's words, the lent words and the place are passed beside one another: a struct that held what is lent would have
// to say in each contract that it still holds the same.
#![tactic(auto)]

pub mod leads;
pub mod place;
pub mod value;
