//! How all threads that wait for sockets are brought to their ends.

use crate::waker::SocketWaker;
use mio::Waker;
use ovs_worker::Wake;
use std::alloc::{AllocError, Global};
use std::sync::Arc;
use std::sync::atomic::{AtomicBool, Ordering};

/// Whether all sessions are to end, and no other is to begin.
#[derive(Drop)]
pub struct ShutdownFlag {
    is_asked: Arc<AtomicBool>,
}

impl ShutdownFlag {
    /// Not yet.
    ///
    /// # Errors
    /// Memory ran out.
    pub fn new(alloc: Global) -> Result<ShutdownFlag, AllocError> {
        Ok(ShutdownFlag {
            is_asked: Arc::new(alloc, AtomicBool::new(false))?,
        })
    }

    /// The same, for another thread.
    ///
    /// # Errors
    /// No more can be counted.
    pub fn again(&self) -> Result<ShutdownFlag, AllocError> {
        Ok(ShutdownFlag {
            is_asked: self.is_asked.clone()?,
        })
    }

    /// Whether it was asked for.
    pub fn is_asked(&self) -> bool {
        self.is_asked.load(Ordering::SeqCst)
    }
}

/// Brings all threads to their ends that look at one `ShutdownFlag` and wait for these wakers. Any thread may call it.
#[derive(Drop)]
pub struct Shutdown {
    shutdown_flag: ShutdownFlag,
    wakers: Vec<Arc<Waker>>,
}

impl Shutdown {
    /// Of no thread yet.
    pub fn new(alloc: Global, shutdown_flag: ShutdownFlag) -> Shutdown {
        Shutdown {
            shutdown_flag,
            wakers: Vec::new(alloc),
        }
    }

    /// Of the threads that these wake, too.
    ///
    /// # Errors
    /// Memory ran out.
    pub fn add(&mut self, wakers: &[SocketWaker]) -> Result<(), AllocError> {
        for waker in wakers {
            self.wakers.push(waker.waker()?)?;
        }
        Ok(())
    }

    /// Whether they were asked to come to their ends.
    pub fn is_asked(&self) -> bool {
        self.shutdown_flag.is_asked()
    }
}

impl Wake for Shutdown {
    fn wake(&self) {
        self.shutdown_flag.is_asked.store(true, Ordering::SeqCst);
        for waker in &self.wakers {
            // It fails only where a thread has let its sockets go, which then doesn't wait.
            let _ = waker.wake();
        }
    }
}
