/// What the program reads, what it writes, and where it tells what went wrong.
#[derive(Drop)]
pub struct Console<R, W, E> {
    pub input: R,
    pub output: W,
    pub errors: E,
}
