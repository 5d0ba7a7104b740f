// The law of whole symbols, as the contract of a function with an empty body.
ghost use Rattle.reception.specs.WholeSymbols.{WholeSymbolsAlike};

use crate::laws::{costs, symbols};

/// A cell file and its whole symbols have the same reception at the end: the same packets of each stream, the same
/// event lines, and the same counts except for the bytes after the symbols.
pub fn whole_symbols()
    ensures { WholeSymbolsAlike }
{
    symbols();
    costs();
}
