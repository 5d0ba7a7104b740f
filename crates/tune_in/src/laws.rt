// The laws of tuning, as contracts of functions with empty bodies.
ghost use Rattle.tune_in.specs.OfBytes.{FoundInBytes, FoundStaysInBytes, NoneInBytes, SymbolIsAdded};
ghost use Rattle.tune_in.specs.Places.{OneFound, FoundStays};

use tps_word::one_word_is_signalled;

/// At most one place is found, with one word.
pub fn one_found()
    ensures { OneFound }
{
    one_word_is_signalled();
}

/// More symbols do not change a place found.
pub fn found_stays()
    ensures { FoundStays }
{}

/// What is found in the symbols of the bytes is found in the bytes.
pub fn symbols_of_bytes()
    ensures found { FoundInBytes }
    ensures none { NoneInBytes }
{}

/// More bytes do not change a place found, and bytes that complete a symbol add it.
pub fn more_bytes()
    ensures stays { FoundStaysInBytes }
    ensures added { SymbolIsAdded }
{
    reception::laws::symbols();
}
