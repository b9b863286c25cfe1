mod asserts;
mod listing;
mod openings;
mod role;
mod steps;
mod tables;
mod telling;
mod tokens;
