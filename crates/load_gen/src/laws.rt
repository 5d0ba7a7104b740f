// The laws of random values, as contracts of functions with empty bodies.
ghost use Rattle.load_gen.specs.Laws.{DrawsAdd, WordsAreSmall, PacketsAreSound, PacketsAreBytes};

/// Taking n words and then m words is taking n + m.
pub fn draws_add()
    ensures { DrawsAdd }
{}

/// A word has 32 bits.
pub fn words_are_small()
    ensures { WordsAreSmall }
{}

/// A random packet has 188 bytes, the first of them 0x47.
pub fn packets_are_sound()
    ensures packet { PacketsAreSound }
    ensures bytes { PacketsAreBytes }
{}
