// Correction of a symbol.
ghost use Rattle.std.specs.Prelude.{◌≡◌, ◌*◌, [], length};
ghost use Rattle.cell_equal.specs.Files.{equalised_symbol};

use crate::Converter;
use cell_equal::equalise_into;
use frame_build::{SymbolIn, header};
use mode_set::Carriers;

// Writes the corrected symbol of this number over a slice of its size. The symbol is whole.
fn equalise_over<M: Carriers>(number: u64, bytes: &[u8], symbol: &mut SymbolIn<M>, to: &mut [u8])
    requires whole { length bytes.now ≡ 5 * M.K }
    requires empty { symbol.old ≡ [] }
    requires long { length to.old ≡ 5 * M.K }
    ensures empty { symbol.new ≡ [] }
    ensures long { length to.new ≡ 5 * M.K }
    ensures corrected { to.new ≡ equalised_symbol M.MODE number bytes.now }
{
    symbol.take(bytes);
    let place = (number % 68) as u8;
    equalise_into(M::MODE, place, symbol.cells(), symbol.weights(), to);
    symbol.next();
}

// The same in the space of a symbol, whatever its content.
fn equalise_symbol<M: Carriers>(
    number: u64,
    bytes: &[u8],
    symbol: &mut SymbolIn<M>,
    room: &mut Vec<u8>,
)
    requires whole { length bytes.now ≡ 5 * M.K }
    requires empty { symbol.old ≡ [] }
    requires long { length room.old.items ≡ 5 * M.K }
    ensures empty { symbol.new ≡ [] }
    ensures long { length room.new.items ≡ 5 * M.K }
    ensures corrected { room.new.items ≡ equalised_symbol M.MODE number bytes.now }
{
    equalise_over(number, bytes, symbol, room);
}

/// The symbol being read, and space for the corrected one.
#[derive(Drop)]
pub(crate) struct Equaliser<M: Carriers> {
    /// The bytes of the symbol as cells and weights.
    pub symbol: SymbolIn<M>,
    /// Space for a corrected symbol.
    pub room: Vec<u8>,
}

impl<M: Carriers> Converter for Equaliser<M> {
    ghost use Rattle.cmd_convert.specs.Equalising.{equalisation, IsEmpty};

    ghost conversion = { λ x. equalisation M.MODE };

    ghost is_ready = { λ x. IsEmpty M.MODE x.symbol x.room.items };

    ghost converted = { λ x. x.room.items };

    fn size(&self) -> usize {
        5 * M::K as usize
    }

    fn header(&self) -> [u8; 8] {
        header(M::MODE)
    }

    fn convert(&mut self, number: u64, symbol: &[u8]) {
        equalise_symbol(number, symbol, &mut self.symbol, &mut self.room);
    }

    fn bytes(&self) -> &[u8] {
        &self.room
    }
}
