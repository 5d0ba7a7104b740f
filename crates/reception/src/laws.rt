// The laws of reception, as contracts of functions with empty bodies.
ghost use Rattle.reception.specs.Laws.{SameSymbols, OneSymbolMore, TailIsUnfinished, MoreUnfinished, EndedSymbol};
ghost use Rattle.reception.specs.Laws.{CellsStay, WeightsStay, TpsCellsStay, BitsOfCells, CostsGrow, SameCosts};
ghost use Rattle.reception.specs.Laws.{NextCosts, NoCosts, CostsAreSteps, CostOfStep, NoCostsWithout, ReportsAreSteps};
ghost use Rattle.reception.specs.Laws.{NewReportsAreLater, NextEvents, NoEvents, OneLive, OneFinal, LiveGrows};
ghost use Rattle.reception.specs.Laws.{FinalEndsLive, NothingGiven, NothingLive};

use code_paths::{
    ended_once, given_begins_ended, given_grows, given_once, reports_grow, reports_once,
};
use symbol_parameters::laws::steps;

/// Bytes complete a symbol or not, and more bytes leave its cells.
pub fn symbols()
    ensures same { SameSymbols }
    ensures next { OneSymbolMore }
    ensures tail { TailIsUnfinished }
    ensures unfinished { MoreUnfinished }
    ensures ended { EndedSymbol }
    ensures cells { CellsStay }
    ensures weights { WeightsStay }
    ensures tps { TpsCellsStay }
    ensures bits { BitsOfCells }
{}

/// The costs of longer bytes begin with those of shorter ones; each step has its pair.
pub fn costs()
    ensures grow { CostsGrow }
    ensures same { SameCosts }
    ensures next { NextCosts }
    ensures none { NoCosts }
    ensures long { CostsAreSteps }
    ensures step { CostOfStep }
    ensures without { NoCostsWithout }
{
    steps();
}

/// Reports are steps of their symbols, and a symbol's events follow the earlier ones.
pub fn events()
    ensures steps { ReportsAreSteps }
    ensures later { NewReportsAreLater }
    ensures next { NextEvents }
    ensures none { NoEvents }
{
    steps();
    reports_once();
}

/// Bytes have one live and one final output; the live one only grows, and is a prefix of the final one.
pub fn receptions()
    ensures live { OneLive }
    ensures last { OneFinal }
    ensures grows { LiveGrows }
    ensures ends { FinalEndsLive }
{
    given_once();
    ended_once();
    reports_once();
    given_grows();
    reports_grow();
    given_begins_ended();
    outer_chain::laws::growth();
    outer_chain::laws::bits();
}

/// No bytes give no output.
pub fn nothing()
    ensures given { NothingGiven }
    ensures live { NothingLive }
{}
