// The bytes of a symbol's cells, carrier by carrier.
ghost use Rattle.std.specs.Prelude.{◌≡◌, ℕ, ◌*◌, ◌<◌, ◌≤◌, get_or, length};
ghost use Rattle.frame_build.specs.State.{bytes_at};

use crate::cell_table::CellTable;
use crate::five_bytes::{put_eight, put_five};
use mode_set::Carriers;

// Writes the bytes of all carriers over a slice of their length: a carrier's cell is the one at the place of its index.
pub(crate) fn put_cells<M: Carriers>(
    label_cells: &CellTable,
    places: &[u8],
    indices: &[u16],
    to: &mut [u8],
)
    requires count { M.K ≤ length indices.now }
    requires index { (k : ℕ) → k < M.K → get_or indices.now k 0 < length places.now }
    requires place { (k : ℕ) → k < M.K → get_or places.now (get_or indices.now k 0) 0 < 72 }
    requires long { length to.old ≡ 5 * M.K }
    ensures { to.new ≡ bytes_at label_cells.now.cells places.now indices.now M.K }
{
    let last = M::K as usize - 1;
    for k in 0..last {
        put_eight(label_cells.wide(places, indices[k] as usize), to, k);
    }
    put_five(label_cells.five(places, indices[last] as usize), to, last);
}
