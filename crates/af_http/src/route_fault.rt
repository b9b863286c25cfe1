use af_ops::Methods;

/// Why a request names no operation: the first that applies.
#[derive(Clone, Copy, Debug, PartialEq, Eq)]
pub enum RouteFault {
    /// Nothing has this path (404): it is none of the table's, or a part of it is no text or no name of its kind.
    NoPath,
    /// The path has other methods, these (405).
    BadMethod(Methods),
    /// There was no memory to read the request with.
    OutOfMemory,
}
