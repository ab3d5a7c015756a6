//! The sockets of a node.

use crate::error::ServerError;
use log::Log;
use ovs_node_threads::UnusedPoller;
use ovs_session::Limits;
use ovs_sockets::{Listening, ShutdownFlag, SocketPoller, SocketWaker};
use ovs_worker::Poller;
use std::alloc::Global;
use std::net::Net;

/// What waits to be written to a reader at most before it is read again, and how many messages it is answered in a turn.
pub(crate) const LIMITS: Limits = Limits {
    most_unsent: 1_048_576,
    messages: 64,
};

/// How many workers a node has that serve readers.
pub(crate) const WORKERS: usize = 8;

/// Where a node's workers take readers in, and what wakes them.
#[derive(Drop)]
pub(crate) struct WorkerSockets<R: Log + Drop>
where
    SocketPoller<R>: Poller,
{
    pub(crate) pollers: Vec<UnusedPoller<SocketPoller<R>>>,
    pub(crate) wakers: Vec<SocketWaker>,
}

impl<R: Net + Log + Copy + Drop> WorkerSockets<R> {
    /// In this place, each of which takes so many connections, or any number.
    pub(crate) fn new(
        rt: R,
        alloc: Global,
        listening: Listening,
        accepts: Option<u32>,
        shutdown_flag: &ShutdownFlag,
    ) -> Result<WorkerSockets<R>, ServerError> {
        let mut pollers = Vec::with_capacity(alloc, WORKERS)?;
        let mut wakers = Vec::with_capacity(alloc, WORKERS)?;
        for worker in 0..WORKERS {
            let poller = listening.poller(rt, alloc, worker, accepts, shutdown_flag)?;
            wakers.push(poller.waker()?)?;
            pollers.push(UnusedPoller::new(poller))?;
        }
        Ok(WorkerSockets { pollers, wakers })
    }
}
