// The laws of the spans of a transmission, as contracts of functions with empty bodies.
ghost use Rattle.symbol_parameters.specs.Laws.{ModeStays, GuardStays, CellIdStays, StartStays, ParametersChange};
ghost use Rattle.symbol_parameters.specs.Laws.{HpExists, LpExists, StreamsExist, SettingsStay, NoSteps, StepsOfOneMore};
ghost use Rattle.symbol_parameters.specs.Laws.{StepsGrow, StepsHaveSymbols, OneSymbol, ConstantStreams, ConstantSteps};
ghost use Rattle.symbol_parameters.specs.Laws.{NoWords, WordsOfOneMore, WordsGrow, SpansHaveWholeWords, ConstantWords};
ghost use Rattle.symbol_parameters.specs.Laws.{StepsAreOfAStream};

use mode_set::super_frames_have_whole_words;

/// The settings of a super-frame are those of the transmission with its own parameters. Mode, guard interval, cell
/// identifier and start stay. Without a plan all settings stay.
pub fn settings()
    ensures mode { ModeStays }
    ensures guard { GuardStays }
    ensures cell_id { CellIdStays }
    ensures start { StartStays }
    ensures parameters { ParametersChange }
    ensures hp { HpExists }
    ensures lp { LpExists }
    ensures exist { StreamsExist }
    ensures same { SettingsStay }
    ensures streams { ConstantStreams }
{}

/// The steps of a stream before a symbol: none before the first one, and each symbol adds its own. Each step belongs to
/// exactly one symbol. If all symbols are alike, the steps are a multiple.
pub fn steps()
    ensures none { NoSteps }
    ensures next { StepsOfOneMore }
    ensures grow { StepsGrow }
    ensures symbols { StepsHaveSymbols }
    ensures one { OneSymbol }
    ensures constant { ConstantSteps }
    ensures streams { StepsAreOfAStream }
{}

/// The outer words of a stream in the first n super-frames: none for n = 0, and each super-frame adds its own. Their
/// bits, 1632 a word, are as many as the steps of their symbols. If all super-frames are alike, the words are a
/// multiple.
pub fn words()
    ensures none { NoWords }
    ensures next { WordsOfOneMore }
    ensures grow { WordsGrow }
    ensures whole { SpansHaveWholeWords }
    ensures constant { ConstantWords }
{
    super_frames_have_whole_words();
}
