//! A poller to which no connection comes.

ghost use Rattle.std.specs.Prelude.{◌≡◌, [], None};

use ovs_session::Ended;
use ovs_worker::{Poller, Ready, Timeout, Wakeup};
use std::collections::VecDeque;
use std::io::Sink;

/// No connection comes.
#[derive(Drop)]
pub(crate) struct NoPoller;

impl Poller for NoPoller {
    type In = VecDeque<u8>;

    type Out = Sink;

    ghost out = { λ _ _. None };

    ghost back = { λ _. [] };

    ghost is_closed = { λ _. Unit {0} };

    ghost is_over = { λ _. Unit {0} };

    fn wait(&mut self, _timeout: Timeout) -> Wakeup {
        Wakeup {
            was_woken: false,
            is_any_ready: false,
            may_accept: false,
            is_closed: true,
            is_over: true,
        }
    }

    fn next_ready(&mut self) -> Option<Ready> {
        None
    }

    fn accept(&mut self, _key: usize) -> Option<(VecDeque<u8>, Sink)> {
        None
    }

    fn left(&mut self, _key: usize, _reader: VecDeque<u8>, _writer: Sink, _ended: Ended) {}
}
