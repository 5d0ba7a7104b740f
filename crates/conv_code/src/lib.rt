//! The inner code: the rate 1/2 mother code with the generators 171 and 133 (octal) and a register of six bits.
//!
//! EN 300 744, 4.3.3. The register is six zeros before the first bit and is never reset.
#![tactic(auto)]

mod encoder;

pub use code_paths::CostPair;
pub use encoder::{Encoder, branch};
