//! What the two values of a coded bit cost, by the cell that carries it: squared distances to the
//! constellation's points (EN 300 744, 4.3.5; the scale and the cap are this project's own).
#![tactic(auto)]

mod axis;
mod lanes;
pub mod laws;
mod metric;
mod planes;
mod weight;

pub use axis::AxisMetric;
pub use metric::{costs, costs_lanes};
pub use weight::weighted;
