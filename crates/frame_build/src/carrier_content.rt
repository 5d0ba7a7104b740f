// What each carrier of a symbol sends.
ghost use Rattle.std.specs.Prelude.{◌≡◌, ◌≢◌, ◌+◌, ◌<◌};
ghost use Rattle.mode_set.specs.StreamTable.{carriers};
ghost use Rattle.pilots.specs.Carriers.{kind};
ghost use Rattle.pilots.specs.Reference.{reference};
ghost use Rattle.frame_build.specs.State.{AreIndices, index_of, labels_of, place_of, source_of};

use mode_set::Carriers;
use pilots::{CarrierKind, kind, reference};

// What a carrier sends: the cell of the next label, or a pilot or a TPS cell, as it is or opposite.
#[derive(Clone, Copy, Debug, PartialEq, Eq)]
pub(crate) enum CarrierContent {
    Label,
    Pilot,
    OppositePilot,
    Signalling,
    OppositeSignalling,
}

impl CarrierContent {
    // The number of labels sent after this carrier, if `next` were sent before it.
    pub(crate) fn after(self, next: usize) -> usize
        requires { next < 65536 }
        ensures { result ≡ next + labels_of self }
    {
        match self {
            CarrierContent::Label => next + 1,
            CarrierContent::Pilot
            | CarrierContent::OppositePilot
            | CarrierContent::Signalling
            | CarrierContent::OppositeSignalling => next,
        }
    }

    // Where its cell stands among those of all carriers, after the cells of 64 labels.
    pub(crate) fn place(self, turned: bool) -> usize
        requires { self ≢ CarrierContent.Label }
        ensures { result ≡ place_of self turned }
    {
        63 + self as usize + if turned { 4 } else { 0 }
    }
}

// What carrier `k` of symbol `l` sends.
pub(crate) fn source_at<M: Carriers>(l: u8, k: u32) -> CarrierContent
    requires symbol { l < 68 }
    requires carrier { k < M.K }
    ensures { result ≡ source_of (kind M.MODE l k) (reference k) }
{
    let opposite = reference(k);
    match kind(M::MODE, l, k) {
        CarrierKind::Continual | CarrierKind::Scattered => {
            if opposite {
                CarrierContent::OppositePilot
            } else {
                CarrierContent::Pilot
            }
        }
        CarrierKind::Tps => {
            if opposite {
                CarrierContent::OppositeSignalling
            } else {
                CarrierContent::Signalling
            }
        }
        CarrierKind::Payload(_) => CarrierContent::Label,
    }
}

// The index of the cell of carrier `k` of symbol `l`: the number of its label, or one of the four after all labels.
pub(crate) fn index_at<M: Carriers>(l: u8, k: u32) -> u16
    requires symbol { l < 68 }
    requires carrier { k < M.K }
    ensures { result ≡ index_of M.MODE (kind M.MODE l k) (reference k) }
{
    let opposite = reference(k) as u32;
    let index = match kind(M::MODE, l, k) {
        CarrierKind::Continual | CarrierKind::Scattered => M::NMAX + opposite,
        CarrierKind::Tps => M::NMAX + 2 + opposite,
        CarrierKind::Payload(number) => number,
    };
    index as u16
}

// The indices of the cells of symbol `l`.
pub(crate) fn indices<M: Carriers>(l: u8) -> [u16; 6817]
    requires { l < 68 }
    ensures { AreIndices M.MODE l result (carriers M.MODE) }
{
    let mut indices = [0; 6817];
    for k in 0..M::K {
        indices[k as usize] = index_at::<M>(l, k);
    }
    indices
}
