//! What calls of a scheduler's state answer and leave, told as steps that one loop plays; and what calls of the crates below it
//! answer: graphs and schedules, pools, variables, runs.
#![tactic(auto)]

#[cfg(test)]
mod tests;
