//! What compiled policies grant, against a plain walk over the permissions that were given, at policies that a generator puts together.
#![tactic(auto)]

#[cfg(test)]
mod tests;
