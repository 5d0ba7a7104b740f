//! Hard decisions: the bits of the constellation point that is nearest to a received cell (EN 300 744, 4.3.5).
#![tactic(auto)]

mod decision;

pub use decision::HardDecision;
