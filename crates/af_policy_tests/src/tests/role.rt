//! Rows worked by hand: the default roles with all their permissions, requirements as they are written, which texts are
//! permissions and which are resources, and what a sync of a DAG leaves.
mod defaults;
mod needs;
mod pairs;
pub mod permissions;
mod syncs;
