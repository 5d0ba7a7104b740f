// The TPS cells of a symbol.
ghost use Rattle.std.specs.Prelude.{◌≡◌, ◌<◌, ◌≤◌, All, length, map, take};
ghost use Rattle.mode_set.specs.StreamTable.{carriers};
ghost use Rattle.pilots.specs.Carriers.{tps_carriers};
ghost use Rattle.qam_map.specs.Cells.{cell_of};
ghost use Rattle.tps_word.specs.Vote.{tps_cells_of};

use mode_set::Mode;
use pilots::tps_carriers;
use qam_map::Cell;

// The cells of these carriers.
fn gather(carriers: &[u16], symbol: &[Cell], to: &mut [Cell])
    requires within { All (λ k. k < length symbol.now) carriers.now }
    requires room { length carriers.now ≤ length to.old }
    ensures { take (length carriers.now) to.new ≡ map (cell_of symbol.now) carriers.now }
{
    for (i, k) in carriers.iter().enumerate() {
        to[i] = symbol[*k as usize];
    }
}

/// Copies the TPS cells of a symbol, carriers rising, to the start of `to`, and returns their number: 17 in the 2K
/// mode, 68 in the 8K mode.
pub fn take_tps_cells(mode: Mode, symbol: &[Cell], to: &mut [Cell; 68]) -> usize
    requires { length symbol.now ≡ carriers mode }
    ensures number { result ≡ length (tps_carriers mode) }
    ensures few { result ≤ 68 }
    ensures taken { take result to.new ≡ tps_cells_of mode symbol.now }
{
    let carriers = tps_carriers(mode);
    gather(carriers, symbol, to);
    carriers.len()
}
