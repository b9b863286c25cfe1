//! Pages of runs of several DAGs, for one who reads one of them, and queries as they come.
mod pages;
mod queries;
mod rows;
