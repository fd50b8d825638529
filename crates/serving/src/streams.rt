// What a run reads and writes: the trace; what is expected, where the output is compared; the output.
#[derive(Drop)]
pub struct Streams<R, E, W> {
    pub input: R,
    pub expected: E,
    pub output: W,
}
