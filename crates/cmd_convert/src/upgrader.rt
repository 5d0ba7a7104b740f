// Upgrade of a symbol.

use crate::Converter;
use crate::old_cells::upgrade_symbol;
use frame_build::header;
use mode_set::Mode;

/// The mode, and space for a symbol of version 2.
#[derive(Drop)]
pub(crate) struct Upgrader {
    /// The mode that the settings state.
    pub mode: Mode,
    /// Space for a symbol of version 2.
    pub room: Vec<u8>,
}

impl Converter for Upgrader {
    ghost use Rattle.cmd_convert.specs.Upgrading.{upgrading, IsRoom};

    ghost conversion = { λ x. upgrading x.mode };

    ghost is_ready = { λ x. IsRoom x.mode x.room.items };

    ghost converted = { λ x. x.room.items };

    fn size(&self) -> usize {
        4 * self.mode.carriers() as usize
    }

    fn header(&self) -> [u8; 8] {
        header(self.mode)
    }

    fn convert(&mut self, _number: u64, symbol: &[u8]) {
        upgrade_symbol(self.mode.carriers(), symbol, &mut self.room);
    }

    fn bytes(&self) -> &[u8] {
        &self.room
    }
}
