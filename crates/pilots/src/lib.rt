//! The kind of each carrier of an OFDM symbol: continual and scattered pilots, TPS carriers and payload carriers, and
//! the reference sequence for the signs of the pilots.
//!
//! EN 300 744, 4.4, 4.5 and 4.6.
#![tactic(auto)]

mod carrier_kind;
mod kinds;
mod laws;
mod payload_carriers;
mod sequence;
mod sets;

pub use carrier_kind::CarrierKind;
pub use kinds::{carrier, is_pilot, kind, tps_carriers};
pub use laws::{
    kinds_repeat, payload_carriers_are_numbered, pilots_are_around, reference_recurs,
    symbols_have_as_many_payload_carriers,
};
pub use sequence::reference;
