//! The commands `modulate`, `receive` and `trial` on a station in memory, and the packet commands `disperse`, `outer`
//! and `inner`: whole runs with known outcomes.
//!
//! Among them: the null super-frame both ways, refusals, faults and limits with their results, both streams of a
//! hierarchy, noise, inverted TPS bits, a late start of reception, transmissions with a plan (also with `rescue`), and
//! a trial against `receive` of its cells. The crate has tests alone.
#![tactic(auto)]

#[cfg(test)]
mod tests;
