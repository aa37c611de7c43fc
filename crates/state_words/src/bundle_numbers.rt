// A deferred edge bundle by its number. The state keeps the number itself, as a word.
#[derive(Clone, Copy, PartialEq, Eq)]
pub struct BundleNumber(pub u16);
