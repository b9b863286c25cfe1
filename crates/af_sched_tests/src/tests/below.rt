//! What calls of the crates below tell: graphs, trigger rules and schedules; pools; variables; runs and look-ups of them.
mod graph;
mod pool;
mod runs;
mod tasks;
mod vars;
