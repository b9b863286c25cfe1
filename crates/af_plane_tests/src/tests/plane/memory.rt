//! Where memory is refused: what is asked is done whole or not at all, and what stands then, told when there is memory again.
mod answering;
mod asking;
mod backfills;
mod controls;
mod dags;
mod due;
mod last_entry;
mod outcome;
mod pair;
mod rows;
mod same;
mod solos;
mod threads;
mod ticks;
