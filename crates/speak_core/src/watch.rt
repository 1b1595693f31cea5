/// Is told before and after each line, by the line's worker. Workers and lines are numbered from 1.
pub trait Watch {
    fn before(&self, worker: u32, line: u64);

    fn after(&self, worker: u32, line: u64);
}

/// The watch that does nothing.
#[derive(Clone, Copy, Debug)]
pub struct NoWatch;

impl Watch for NoWatch {
    fn before(&self, _worker: u32, _line: u64) {}

    fn after(&self, _worker: u32, _line: u64) {}
}
