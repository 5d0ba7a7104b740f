// The laws of the code, as contracts of functions with empty bodies.

ghost use Rattle.rs204.specs.Laws.{CodewordsApart, OneIsNear, MessageHasCodeword, CodewordIsOne};

/// Two different codewords differ in at least 17 positions, so at most one is within distance 8 of a word.
pub fn distance()
    ensures apart { CodewordsApart }
    ensures near { OneIsNear }
{}

/// Each message of 188 bytes has exactly one codeword that begins with it.
pub fn codewords()
    ensures some { MessageHasCodeword }
    ensures one { CodewordIsOne }
{}
