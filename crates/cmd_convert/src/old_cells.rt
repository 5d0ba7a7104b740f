// Upgrade of cells of version 1 to version 2.
ghost use Rattle.std.specs.Prelude.{◌≡◌, ◌*◌, ◌++◌, [], ◌∷◌, length};
ghost use Rattle.soft_metric.specs.Weights.{full_weight};
ghost use Rattle.law_link.specs.OldCells.{upgraded_cells};

// The full weight of a cell.
const FULL_WEIGHT: u8 = 15;

// Replaces five bytes by the four bytes of an old cell and its weight.
fn put_cell(old_cell: &[u8], new_cell: &mut [u8])
    requires four { length old_cell.now ≡ 4 }
    requires five { length new_cell.old ≡ 5 }
    ensures { new_cell.new ≡ old_cell.now ++ full_weight ∷ [] }
{
    new_cell[..4].copy_from_slice(old_cell);
    new_cell[4] = FULL_WEIGHT;
}

// Fills the space with as many old cells, each with its weight.
fn upgrade_cells(count: u32, old_cells: &[u8], room: &mut [u8])
    requires cells { length old_cells.now ≡ 4 * count }
    requires long { length room.old ≡ 5 * count }
    ensures { room.new ≡ upgraded_cells count old_cells.now }
{
    for k in 0..count as usize {
        put_cell(&old_cells[4 * k..4 * k + 4], &mut room[5 * k..5 * k + 5]);
    }
}

/// The same in the space of a symbol, whatever its content.
pub(crate) fn upgrade_symbol(carriers: u32, symbol: &[u8], room: &mut Vec<u8>)
    requires cells { length symbol.now ≡ 4 * carriers }
    requires long { length room.old.items ≡ 5 * carriers }
    ensures cells { room.new.items ≡ upgraded_cells carriers symbol.now }
    ensures long { length room.new.items ≡ 5 * carriers }
{
    upgrade_cells(carriers, symbol, room);
}
