// Conversion of the symbols of a file of cells to those of another.
ghost use Rattle.std.specs.Prelude.{◌≡◌, ℕ, List, length};
ghost use Rattle.cmd_convert.specs.Conversion.{Conversion};

/// A converter of symbols, with space for one converted symbol.
///
/// `conversion` is its definition, `is_ready` says that it may take a symbol, and `converted` is its output.
pub trait Converter {
    ghost conversion: { Self → Conversion };

    ghost is_ready: { Self → Type 0 };

    ghost converted: { Self → List ℕ };

    /// The bytes of an old symbol.
    fn size(&self) -> usize
        ensures { result ≡ (conversion self.now).size };

    /// The header of the new file.
    fn header(&self) -> [u8; 8]
        ensures { result ≡ (conversion self.now).new_header };

    /// Converts the symbol of this number, counted from the first symbol of the file. The symbol is whole.
    fn convert(&mut self, number: u64, symbol: &[u8])
        requires ready { is_ready self.old }
        requires whole { length symbol.now ≡ (conversion self.old).size }
        ensures ready { is_ready self.new }
        ensures same { conversion self.new ≡ conversion self.old }
        ensures bytes { converted self.new ≡ (conversion self.old).new_symbol number symbol.now };

    /// The bytes of the symbol converted last.
    fn bytes(&self) -> &[u8]
        ensures { result.now ≡ converted self.now };
}
