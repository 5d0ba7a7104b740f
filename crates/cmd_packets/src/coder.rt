// The coding of the packets of a transport input.
ghost use Rattle.std.specs.Prelude.{◌≡◌, ◌∷◌, ◌++◌, List, [], ℕ};

use ts_packet::Packet;

/// A coder of the packets of a transport input, in order.
///
/// `coded packets` is the output for packets if more may follow, and `ended packets` the whole output. `took packets`
/// says that the coder has taken exactly these since its start.
pub trait Coder {
    ghost coded: { Self → List (List ℕ) → List ℕ };

    ghost ended: { Self → List (List ℕ) → List ℕ };

    ghost took: { Self → List (List ℕ) → Type 0 };

    ghost piece: { Self → List ℕ };

    /// Takes the next packet.
    fn take(&mut self, packet: &Packet)
        ensures same { (packets : List (List ℕ)) → coded self.new packets ≡ coded self.old packets }
        ensures same_end { (packets : List (List ℕ)) → ended self.new packets ≡ ended self.old packets }
        ensures takes { (packets : List (List ℕ)) → took self.old packets → took self.new (packets ++ packet.now ∷ []) }
        ensures gives { (packets : List (List ℕ)) → took self.old packets
            → coded self.old (packets ++ packet.now ∷ []) ≡ coded self.old packets ++ piece self.new };

    /// Ends the stream: no packet follows.
    fn finish(&mut self)
        ensures ends { (packets : List (List ℕ)) → took self.old packets
            → ended self.old packets ≡ coded self.old packets ++ piece self.new };

    /// The output of the last call, to be written after the earlier output.
    fn bytes(&self) -> &[u8]
        ensures { result.now ≡ piece self.now };
}
