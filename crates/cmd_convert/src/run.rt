// A run of a conversion after its settings.
ghost use Rattle.std.specs.Prelude.{◌≡◌, ◌<◌, length};
ghost use Rattle.cmd_cells.specs.Outputs.{cell_names};
ghost use Rattle.cmd_cells.specs.Runs.{IsReady};
ghost use Rattle.cmd_convert.specs.Runs.{RunsConversion};

use crate::converter::Converter;
use crate::work::ConversionWork;
use cmd_cells::{CellFile, run_cells};
use station_core::Station;

/// Converts the cells of the old file, which must begin with this header, if any, and returns the status. `symbol` has
/// the size of an old symbol, and the limit is in whole symbols.
pub fn run_conversion<'a, C: Converter + Drop, S: Station<'a>>(
    max_symbols: u32,
    header: Option<[u8; 8]>,
    converter: C,
    symbol: &mut [u8],
    old_cells: &'a str,
    new_cells: &'a str,
    station: &mut S,
) -> u8
    requires header { header ≡ (C.conversion converter).old_header }
    requires converter { C.is_ready converter }
    requires size { length symbol.old ≡ (C.conversion converter).size }
    requires some { 0 < length symbol.old }
    requires ready { IsReady (cell_names new_cells.now) (S.meaning station.old) }
    ensures { RunsConversion (C.conversion converter) max_symbols old_cells.now new_cells.now (S.meaning station.old)
        (S.meaning station.new) result }
{
    let mut work = ConversionWork {
        converter,
        symbols: 0,
        tail: 0,
    };
    let files = CellFile { name: new_cells };
    run_cells(
        max_symbols,
        old_cells,
        header,
        &files,
        &mut work,
        symbol,
        station,
    )
}
