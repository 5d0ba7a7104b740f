// The laws of what is sent and received, as contracts of functions that do nothing.

ghost use Rattle.outer_chain.specs.SendingLaws.{SameBeginning, MorePacketsSent, ByteAfterByte};
ghost use Rattle.outer_chain.specs.Bits.{ByteOfBits, FirstBits, MoreBits};
ghost use Rattle.outer_chain.specs.Nears.{CleanIsCodeword, DecodedIsNear, DecodedPacket};
ghost use Rattle.outer_chain.specs.Running.{NothingFinished, TookByte, TookBytes, FinishedWord, AllFinished};
ghost use Rattle.outer_chain.specs.Running.{WordStays};
ghost use Rattle.outer_chain.specs.Laws.{OuterAreBytes, OwnBytes, OwnTally, BurstNear, BurstSameNear, BurstBeginning};
ghost use Rattle.outer_chain.specs.Laws.{BurstPhases, BurstPackets, OneNear, OnePackets, OneTally, MorePackets};

/// What is sent for the first packets does not depend on later ones.
pub fn sending()
    ensures beginning { SameBeginning }
    ensures more { MorePacketsSent }
    ensures bytes { ByteAfterByte }
{}

/// Bytes and their bits.
pub fn bits()
    ensures byte { ByteOfBits }
    ensures first { FirstBits }
    ensures more { MoreBits }
{}

/// A sender's own bytes give its packets and then null packets, less the last eleven, and all words
/// are clean.
pub fn own_bytes()
    ensures are_bytes { OuterAreBytes }
    ensures packets { OwnBytes }
    ensures tally { OwnTally }
{}

/// Runs of at most 96 changed bytes, with 2448 unchanged ones between two of them, change no nearest
/// codeword, no phase and no packet.
pub fn bursts()
    ensures near { BurstNear }
    ensures same_near { BurstSameNear }
    ensures beginning { BurstBeginning }
    ensures phases { BurstPhases }
    ensures packets { BurstPackets }
{}

/// Bytes have one list of packets and one tally, and what was written stays as bytes come.
pub fn growth()
    ensures one_near { OneNear }
    ensures one_packets { OnePackets }
    ensures one_tally { OneTally }
    ensures more { MorePackets }
    ensures word { WordStays }
{}

/// Decoding finds the nearest codeword.
pub fn decoding()
    ensures near { DecodedIsNear }
    ensures packet { DecodedPacket }
    ensures clean { CleanIsCodeword }
{}

/// How a receiver's packets and counts grow, where words wait and are finished in order.
pub fn receiving()
    ensures first { NothingFinished }
    ensures byte { TookByte }
    ensures word { FinishedWord }
    ensures all { AllFinished }
{}

/// A receiver that takes bytes, of which any number may end words, has finished the same words as before.
pub fn taking()
    ensures bytes { TookBytes }
{}
