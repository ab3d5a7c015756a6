//! What is done in threads.

/// What is done with each job. A fact about what comes of one is a fact of its type.
pub trait Work<J, X> {
    /// Does a job, in its thread.
    fn work(&self, job: J) -> X;

    /// What comes of a job whose thread couldn't be started.
    fn refuse(&self, job: J) -> X;
}
