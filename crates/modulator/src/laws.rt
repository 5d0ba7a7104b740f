// The laws of a modulator's state.
ghost use Rattle.modulator.specs.Laws.{OtherStreams};

use outer_chain::laws::sending;

/// The packets put are the first ones of all streams that begin with them, so the output is a prefix of all these
/// transmissions.
pub fn other_streams()
    ensures { OtherStreams }
{
    sending();
}
