mod changing;
mod measure_refused;
mod measure_running;
mod measured;
mod measured_pieces;
mod measured_plans;
mod rescued;
mod tuned;
