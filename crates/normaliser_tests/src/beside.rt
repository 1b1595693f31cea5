//! Callers at work in threads of their own, beside others that empty the places or stop there.

ghost use Rattle.std.specs.Prelude.{◌≡◌, ◌≤◌, All, IfOk};
ghost use Rattle.normaliser.specs.Searches.{IsCallerOf, places_of};

use crate::toy::{all_told, next, toy};
use normaliser::{Caller, Normaliser};
use sample_lines::sample_batch;
use std::alloc::{AllocError, Global};
use std::test::Fail;
use std::thread::{Threads, map_vec};

/// What a caller does.
#[derive(Clone, Copy)]
enum Work {
    /// It speaks the lines.
    Speak,
    /// It empties the places, so many times over.
    Sweep(u32),
    /// It empties them so many times over, and then stops at a place.
    Stop(u32, u32),
}

/// A caller, and what it does.
#[derive(Drop)]
struct Worker {
    caller: Caller,
    work: Work,
}

/// What a caller says while it does its work, as text.
fn said(
    alloc: Global,
    normaliser: &Normaliser,
    places: u32,
    worker: Worker,
    lines: &[&[u8]],
) -> Result<Vec<u8>, AllocError>
    requires places { (places_of normaliser.now ≡ places) × (1 ≤ places) }
    requires ready { IsCallerOf normaliser.now worker.caller }
{
    let Worker { mut caller, work } = worker;
    match work {
        Work::Speak => return all_told(alloc, normaliser, &mut caller, lines),
        Work::Sweep(rounds) => {
            let _ = normaliser.sweep(&mut caller, rounds);
        }
        Work::Stop(rounds, place) => {
            let _ = normaliser.sweep(&mut caller, rounds);
            let _ = normaliser.stall(caller, place % places);
        }
    }
    Ok(Vec::new(alloc))
}

/// All callers, each in a thread of its own.
fn all_said<R: Threads + Sync>(
    rt: &R,
    alloc: Global,
    normaliser: &Normaliser,
    places: u32,
    workers: Vec<Worker>,
    lines: &[&[u8]],
) -> Result<Vec<Result<Vec<u8>, AllocError>>, AllocError>
    requires places { (places_of normaliser.now ≡ places) × (1 ≤ places) }
    requires ready { All (λ w. IsCallerOf normaliser.now w.caller) workers.items }
{
    map_vec(
        rt,
        workers,
        &|worker| -> Result<Vec<u8>, AllocError>
            requires { (places_of normaliser.now ≡ places) × (1 ≤ places) × IsCallerOf normaliser.now worker.caller }
        { said(alloc, normaliser, places, worker, lines) },
    )
}

/// The next callers, with their work.
fn workers(
    alloc: Global,
    normaliser: &Normaliser,
    callers: &mut Vec<Caller>,
    works: &[Work],
) -> Result<Vec<Worker>, Fail>
    requires ready { All (IsCallerOf normaliser.now) callers.old.items }
    ensures ready { IfOk result (λ v. All (λ w. IsCallerOf normaliser.now w.caller) v.items) }
{
    let mut workers = Vec::new(alloc);
    for work in works {
        let caller = next(normaliser, callers)?;
        workers.push(Worker {
            caller,
            work: *work,
        })?;
    }
    Ok(workers)
}

/// What a caller that is alone says.
fn said_alone(alloc: Global, lines: &[&[u8]]) -> Result<Vec<u8>, Fail> {
    let (normaliser, mut callers) = toy(alloc, 256, 1)?;
    let mut caller = next(&normaliser, &mut callers)?;
    let text = all_told(alloc, &normaliser, &mut caller, lines)?;
    Ok(text)
}

/// Each caller does its work over so many places. How many said what one says that is alone, where no other words were said.
fn said_right<R: Threads + Sync>(
    rt: &R,
    alloc: Global,
    places: u32,
    works: &[Work],
) -> Result<u32, Fail> {
    let (batch, _) = sample_batch(alloc, 1, 100)?;
    let mut lines = Vec::new(alloc);
    for line in &batch {
        lines.push(line.as_slice())?;
    }
    let want = said_alone(alloc, &lines)?;
    let (normaliser, mut callers) = toy(alloc, places, works.len())?;
    let workers = workers(alloc, &normaliser, &mut callers, works)?;
    let mut right = 0u32;
    for text in all_said(rt, alloc, &normaliser, places, workers, &lines)? {
        let text = text?;
        if text == want {
            right = right.saturating_add(1);
        } else if !text.is_empty() {
            return Err("other words than those of a caller alone")?;
        }
    }
    Ok(right)
}

#[test]
fn two_speak_beside_one_that_sweeps(rt: HostRuntime) -> Result<(), Fail> {
    let works = [Work::Speak, Work::Speak, Work::Sweep(100_000)];
    assert_eq!(rt; said_right(&rt, rt.alloc(), 1, &works)?, 2);
    Ok(())
}

/// Some stop at places that are empty, some where a code is shown, and some that another reads or claims: which, each run decides.
#[test]
fn one_speaks_beside_others_that_stop(rt: HostRuntime) -> Result<(), Fail> {
    let mut works = [Work::Speak; 16];
    for k in 1usize..16 {
        works[k] = Work::Stop(10_000 * k as u32, k as u32);
    }
    assert_eq!(rt; said_right(&rt, rt.alloc(), 7, &works)?, 1);
    Ok(())
}
