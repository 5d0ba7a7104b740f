// Why settings are rejected.
use crate::Key;
use thiserror::Error;

/// Why a settings document is rejected: the first reason that applies, in the order of the variants.
#[derive(Clone, Copy, Debug, PartialEq, Eq, Error)]
pub enum SettingsError {
    /// The bytes are not a TOML document.
    #[error("not a TOML document")]
    NotToml,
    /// An unknown key; its index among all keys in byte order, from 0.
    #[error("unknown key at place {0}")]
    Unknown(u32),
    /// A mandatory key is absent.
    #[error("missing key {0:?}")]
    Missing(Key),
    /// The value of a key has the wrong type or is not allowed.
    #[error("wrong value of key {0:?}")]
    Value(Key),
    /// Two keys contradict each other: QPSK with a hierarchy, an LP rate without a hierarchy, or a hierarchy without an
    /// LP rate.
    #[error("clash at key {0:?}")]
    Clash(Key),
    /// Memory was lacking.
    #[error("out of memory")]
    Memory,
}
