// The work of a conversion on the symbols of the old file.
use crate::converter::Converter;
use crate::counts::line_of_counts;
use cmd_cells::{RunError, SymbolWork, write_some};
use station_core::{OutPort, Station};

/// A converter, with the counts of the old cells.
#[derive(Drop)]
pub(crate) struct ConversionWork<C> {
    /// The converter of a symbol.
    pub converter: C,
    /// The number of whole symbols taken.
    pub symbols: u64,
    /// The number of bytes taken after them.
    pub tail: u64,
}

impl<'a, S: Station<'a>, C: Converter> SymbolWork<'a, S> for ConversionWork<C> {
    ghost use Rattle.std.specs.Prelude.{⊤};
    ghost use Rattle.cmd_convert.specs.Conversion.{Conversion};
    ghost use Rattle.cmd_convert.specs.Working.{Counts, CountsNone, conversion_work, writes_at};

    ghost Setup = { Conversion };

    ghost setup = { λ x. C.conversion x.converter };

    ghost work = { λ c. conversion_work c };

    ghost outputs = { λ c. writes_at };

    ghost able = { ⊤ };

    ghost is_new = { λ x. C.is_ready x.converter × CountsNone (C.conversion x.converter) x.symbols x.tail };

    ghost stands = { λ x bytes given. C.is_ready x.converter
        × Counts (C.conversion x.converter) x.symbols x.tail bytes given };

    fn begin(&mut self, station: &mut S) -> Result<(), RunError> {
        write_some(OutPort::Cells, &self.converter.header(), station)
    }

    fn take(&mut self, piece: &[u8], station: &mut S) -> Result<(), RunError> {
        if piece.len() != self.converter.size() {
            self.tail = piece.len() as u64;
            return Ok(());
        }
        self.converter.convert(self.symbols, piece);
        self.symbols += 1;
        write_some(OutPort::Cells, self.converter.bytes(), station)
    }

    fn finish(&mut self, station: &mut S) -> Result<(), RunError> {
        let line = line_of_counts(self.symbols, self.tail);
        write_some(OutPort::Report, line.as_str().as_bytes(), station)
    }

    fn law(&self) {}
}
