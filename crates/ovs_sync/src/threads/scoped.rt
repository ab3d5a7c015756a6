//! Threads beside the caller's.

ghost use Rattle.std.specs.Prelude.{◌≡◌, ◌≤◌, ◌+◌, ℕ, IfOk, IfErr, length, vec_len, vec_capacity};
ghost use denote.Param.Send.{IsSend, IsSync};

use crate::threads::begun::{Begun, begin};
use crate::threads::work::Work;
use std::alloc::{AllocError, Global};
use std::sync::Wait;
use std::sync::atomic::AtomicBool;
use std::thread;
use std::thread::{Scope, Threads};

/// There was no memory to begin: nothing was done, and all is handed back.
#[derive(Drop)]
pub struct SpawnError<J, S> {
    /// The jobs.
    pub jobs: Vec<J>,
    /// What was to be done in the caller's thread.
    pub here: S,
}

// Room for the threads of so many jobs, and for what comes of them.
#[derive(Drop)]
struct Room<X: Drop> {
    // For each job whether its thread was refused.
    refused: Vec<AtomicBool>,
    begun: Vec<Begun<X>>,
    results: Vec<X>,
}

impl<X: Drop> Room<X> {
    fn new(alloc: Global, jobs: usize) -> Result<Room<X>, AllocError>
        ensures refused { IfOk result (λ r. vec_len r.refused ≡ jobs) }
        ensures begun { IfOk result (λ r. (vec_len r.begun ≡ 0) × (jobs ≤ vec_capacity r.begun)) }
        ensures results { IfOk result (λ r. (vec_len r.results ≡ 0) × (jobs ≤ vec_capacity r.results)) }
    {
        let mut refused = Vec::with_capacity(alloc, jobs)?;
        for _ in 0..jobs {
            refused.push(AtomicBool::new(false))?;
        }
        Ok(Room {
            refused,
            begun: Vec::with_capacity(alloc, jobs)?,
            results: Vec::with_capacity(alloc, jobs)?,
        })
    }
}

// Begins all jobs, each in a thread of its own.
fn begin_all<'s, E, J: Send + Drop + 's, X: Send + Drop + 's, W: Work<J, X> + Sync + 's>(
    scope: &Scope<'s, E>,
    jobs: Vec<J>,
    work: &'s W,
    refused: &'s [AtomicBool],
    begun: &mut Vec<Begun<X>>,
)
    requires empty { vec_len begun.old ≡ 0 }
    requires room { vec_len jobs ≤ vec_capacity begun.old }
    requires flags { length refused.now ≡ vec_len jobs }
    ensures all { vec_len begun.new ≡ vec_len jobs }
{
    for job in jobs {
        let refused = &refused[begun.len()];
        begun.push_reserved(begin(scope, job, work, refused));
    }
}

// What came of all, once their threads have come to their ends.
fn end_all<X: Drop, R: Threads>(rt: &R, begun: Vec<Begun<X>>, results: &mut Vec<X>)
    requires empty { vec_len results.old ≡ 0 }
    requires room { vec_len begun ≤ vec_capacity results.old }
    ensures all { vec_len results.new ≡ vec_len begun }
{
    for one in begun {
        results.push_reserved(one.result(rt));
    }
}

/// Does each job in a thread of its own, and beside them what is to be done here, in this thread. Comes back once all have
/// come to their ends, with as many results as there were jobs. A job whose thread couldn't be started is refused. Which jobs
/// are, and which result is of which job, no clause says.
///
/// # Errors
/// `SpawnError` where memory ran out.
pub fn run_scoped<
    J: Send + Drop,
    X: Send + Drop,
    W: Work<J, X> + Sync,
    R: Threads + Wait + Sync,
    S: FnOnce() -> Z,
    Z,
>(rt: &R, alloc: Global, jobs: Vec<J>, work: &W, here: S) -> Result<(Vec<X>, Z), SpawnError<J, S>>
    requires here { S.pre here }
    ensures all { IfOk result (λ r. vec_len r.0 ≡ vec_len jobs) }
    ensures here { IfOk result (λ r. S.post here r.1) }
    ensures handed_back { IfErr result (λ n. (n.jobs ≡ jobs) × (n.here ≡ here)) }
{
    let Ok(room) = Room::new(alloc, jobs.len()) else {
        return Err(SpawnError { jobs, here });
    };
    let Room {
        refused,
        begun,
        results,
    } = room;
    Ok(in_scope(rt, jobs, work, here, &refused, begun, results))
}

// The same, where there is room.
fn in_scope<
    J: Send + Drop,
    X: Send + Drop,
    W: Work<J, X> + Sync,
    R: Threads + Wait + Sync,
    S: FnOnce() -> Z,
    Z,
>(
    rt: &R,
    jobs: Vec<J>,
    work: &W,
    here: S,
    refused: &[AtomicBool],
    begun: Vec<Begun<X>>,
    results: Vec<X>,
) -> (Vec<X>, Z)
    requires here { S.pre here }
    requires flags { length refused.now ≡ vec_len jobs }
    requires begun { (vec_len begun ≡ 0) × (vec_len jobs ≤ vec_capacity begun) }
    requires results { (vec_len results ≡ 0) × (vec_len jobs ≤ vec_capacity results) }
    ensures all { vec_len result.0 ≡ vec_len jobs }
    ensures here { S.post here result.1 }
{
    thread::scope(
        thread::scope_env(),
        rt,
        move |scope| -> (Vec<X>, Z)
            requires { IsSend J.row × IsSend X.row × IsSync W.row × IsSync R.row × S.pre here × (length refused.now ≡ vec_len jobs)
                × (vec_len begun ≡ 0) × (vec_len jobs ≤ vec_capacity begun) × (vec_len results ≡ 0) × (vec_len jobs ≤ vec_capacity results) }
            ensures { (vec_len result.0 ≡ vec_len jobs) × S.post here result.1 }
        {
            let mut begun = begun;
            let mut results = results;
            begin_all(scope, jobs, work, refused, &mut begun);
            let done_here = here();
            end_all(rt, begun, &mut results);
            (results, done_here)
        },
    )
}
