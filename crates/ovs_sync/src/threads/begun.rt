//! Jobs in their threads.

use crate::threads::work::Work;
use std::sync::atomic::{AtomicBool, Ordering};
use std::thread::{JoinHandle, Scope, Threads};

/// A job that is done in a thread, or whose thread was refused.
#[derive(Drop)]
pub(crate) enum Begun<X: Drop> {
    InThread(JoinHandle<X>),
    Refused(X),
}

// What is done in a thread, and where it was refused.
fn do_job<J, X, W: Work<J, X>>(work: &W, job: J, refused: &AtomicBool) -> X {
    if refused.load(Ordering::SeqCst) {
        work.refuse(job)
    } else {
        work.work(job)
    }
}

/// Begins a job in a thread of its own. Where none can be made the job is refused here.
pub(crate) fn begin<'s, E, J: Send + Drop + 's, X: Send + Drop + 's, W: Work<J, X> + Sync + 's>(
    scope: &Scope<'s, E>,
    job: J,
    work: &'s W,
    refused: &'s AtomicBool,
) -> Begun<X> {
    match scope.spawn(move || do_job(work, job, refused)) {
        Ok(handle) => Begun::InThread(handle),
        Err(found_no_thread) => {
            refused.store(true, Ordering::SeqCst);
            Begun::Refused((found_no_thread.value)())
        }
    }
}

impl<X: Drop> Begun<X> {
    /// What comes of the job, once its thread has come to its end.
    pub(crate) fn result<R: Threads>(self, rt: &R) -> X {
        match self {
            Begun::InThread(handle) => handle.join(rt),
            Begun::Refused(result) => result,
        }
    }
}
