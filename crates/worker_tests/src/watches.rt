//! Watches that hold a line or count.

use speak_core::Watch;
use std::alloc::{AllocError, Global};
use std::hint::spin_loop;
use std::sync::atomic::{AtomicU64, Ordering};

/// How often a held line looks whether it may go on. It gives up after that.
const TURNS: u64 = 400_000_000;

/// Holds line 1 before it is spoken, until line 2 is spoken.
#[derive(Drop)]
pub(crate) struct Holding {
    /// How often it was told that line 2 is spoken.
    spoken: AtomicU64,
    /// How often line 1 saw that, while it was held.
    seen: AtomicU64,
}

impl Holding {
    pub(crate) fn new() -> Holding {
        Holding {
            spoken: AtomicU64::new(0),
            seen: AtomicU64::new(0),
        }
    }

    /// How often line 1 was held until line 2 was spoken. Where it gave up, it isn't counted.
    pub(crate) fn seen(&self) -> u64 {
        self.seen.load(Ordering::SeqCst)
    }
}

impl Watch for Holding {
    fn before(&self, _worker: u32, line: u64) {
        if line == 1 && is_told(&self.spoken) {
            self.seen.fetch_add(1, Ordering::SeqCst);
        }
    }

    fn after(&self, _worker: u32, line: u64) {
        if line == 2 {
            self.spoken.fetch_add(1, Ordering::SeqCst);
        }
    }
}

/// Whether the count is more than 0 within so many looks.
fn is_told(count: &AtomicU64) -> bool {
    for _ in 0..TURNS {
        if count.load(Ordering::SeqCst) > 0 {
            return true;
        }
        spin_loop();
    }
    false
}

/// What a line's count gets when it is told before, and after that; and at each call that isn't due.
const BEFORE: u64 = 1;

const AFTER: u64 = 256;

const WRONG: u64 = 65536;

/// The count of a line that was told as it should be.
pub(crate) const TOLD_ONCE: u64 = BEFORE + AFTER;

/// Counts what it is told of each line.
#[derive(Drop)]
pub(crate) struct Counting {
    jobs: u64,
    /// By the line's number. No line has the number 0.
    counts: Vec<AtomicU64>,
    /// How often it was told of a line that there isn't.
    strays: AtomicU64,
}

impl Counting {
    /// For so many workers and lines.
    pub(crate) fn new(alloc: Global, jobs: u64, lines: u64) -> Result<Counting, AllocError> {
        let mut counts = Vec::new(alloc);
        counts.push(AtomicU64::new(0))?;
        for _ in 0..lines {
            counts.push(AtomicU64::new(0))?;
        }
        Ok(Counting {
            jobs,
            counts,
            strays: AtomicU64::new(0),
        })
    }

    pub(crate) fn count(&self, line: usize) -> u64 {
        match self.counts.get(line) {
            Some(count) => count.load(Ordering::SeqCst),
            None => 0,
        }
    }

    pub(crate) fn strays(&self) -> u64 {
        self.strays.load(Ordering::SeqCst)
    }

    /// Adds a step to the count of a line, which is to be the line's first count or what its first step made it.
    fn tell(&self, worker: u32, line: u64, due: u64, step: u64) {
        let Some(count) = self.counts.get(line as usize) else {
            self.strays.fetch_add(1, Ordering::SeqCst);
            return;
        };
        let found = count.fetch_add(step, Ordering::SeqCst);
        if found != due || !is_workers(worker, line, self.jobs) {
            count.fetch_add(WRONG, Ordering::SeqCst);
        }
    }
}

impl Watch for Counting {
    fn before(&self, worker: u32, line: u64) {
        self.tell(worker, line, 0, BEFORE);
    }

    fn after(&self, worker: u32, line: u64) {
        self.tell(worker, line, BEFORE, AFTER);
    }
}

/// Whether a line belongs to a worker: lines 1, 2, 3, .. go to workers 1, 2, .., and on from 1 again.
fn is_workers(worker: u32, line: u64, jobs: u64) -> bool {
    match line.checked_sub(1) {
        Some(before) => before.checked_rem(jobs) == u64::from(worker).checked_sub(1),
        None => false,
    }
}
