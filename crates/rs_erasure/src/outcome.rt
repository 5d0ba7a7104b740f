/// The outcome of decoding a word with erasures.
#[derive(Clone, Copy, Debug, Drop, PartialEq, Eq)]
pub enum Erased {
    /// The word is now a codeword. It differed in this number of positions outside the erasures, 0 to 4.
    Found(u8),
    /// Every codeword differs in more than four positions outside the erasures.
    NoWord,
}
