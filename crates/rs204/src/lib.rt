//! The outer code RS(204,188), t = 8, shortened from (255,239) (EN 300 744, 4.3.2).
//!
//! A word of 204 bytes is a polynomial over the field of 256 elements, byte 0 being the coefficient of x^203. A
//! codeword is a multiple of the generator, the product of x + λ^i for i from 0 to 15. [`encode`] returns the codeword
//! of a message, and [`decode`] exactly the codeword within distance 8 of a word, if there is one.
#![tactic(auto)]

mod bytes;
mod decoder;
mod division;
mod encoder;
pub mod laws;
mod multiples;
mod multiples_ahead;
mod outcome;
pub mod plain;
pub mod steps;
mod terms;
mod values;

pub use decoder::decode;
pub use encoder::encode;
pub use outcome::Outcome;
