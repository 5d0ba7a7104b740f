// The laws of the stream table, as contracts of functions with empty bodies.
ghost use Rattle.mode_set.specs.Laws.{SymbolsHaveWholePeriods, SuperFramesHaveWholeWords};

/// A symbol has a whole number of puncturing periods of each stream.
pub fn symbols_have_whole_periods()
    ensures { SymbolsHaveWholePeriods }
{}

/// A super-frame has a whole number of outer words of each stream (EN 300 744, 4.7).
pub fn super_frames_have_whole_words()
    ensures { SuperFramesHaveWholeWords }
{}
