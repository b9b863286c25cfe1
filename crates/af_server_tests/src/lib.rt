//! Workers over loopback, a connection in pieces, files that fail, and what there is no memory for.
#![tactic(auto)]

#[cfg(test)]
mod tests;
