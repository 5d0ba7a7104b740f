//! The settings of a transmission: mode, constellation, hierarchy, code rates, guard interval.
//!
//! EN 300 744, 4.3 to 4.6. Every crate above takes its modes, shapes, rates and streams from here.
#![tactic(auto)]

mod at_keys;
mod carriers;
mod constellations;
mod entries;
mod entry;
mod error;
mod key;
mod laws;
mod modes;
mod plan;
mod plan_key;
mod plans;
mod read;
mod settings;
mod streams;
mod words;

pub use carriers::{Carriers, Mode2k, Mode8k};
pub use constellations::{
    Constellation, Qam16A1, Qam16A2, Qam16A4, Qam64A1, Qam64A2, Qam64A4, Qpsk,
};
pub use entry::Entry;
pub use error::SettingsError;
pub use key::Key;
pub use laws::{super_frames_have_whole_words, symbols_have_whole_periods};
pub use modes::{Guard, Hierarchy, Mode, Rate, Shape, Start, Stream};
pub use plan::Plan;
pub use settings::Settings;
pub use streams::stream_width;
