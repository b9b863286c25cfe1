// Each operation: what it answers and what it edits. All memory is taken here.
pub(crate) mod backfilling;
pub(crate) mod clearing;
pub(crate) mod dags;
pub(crate) mod deleting;
pub(crate) mod instances;
pub(crate) mod marking;
pub(crate) mod named_dags;
pub(crate) mod pools;
pub(crate) mod runs;
pub(crate) mod shared;
pub(crate) mod tasks;
pub(crate) mod triggering;
pub(crate) mod variables;
