//! Connections whose input comes in pieces, is cut or does not end; readers and writers that fail; replies that no request shows; and a change of the
//! policy for whose body there was no memory.
#![tactic(auto)]

#[cfg(test)]
mod tests;
