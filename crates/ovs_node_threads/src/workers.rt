//! The threads of a node's workers, each of which serves many readers.

ghost use Rattle.std.specs.Prelude.{ℕ, List};
ghost use Rattle.ovs_links.specs.declared.step.Step.{Step};
ghost use Rattle.ovs_service.specs.Client.{new_view};
ghost use Rattle.std.specs.List.{AllByRecursion};
ghost use Rattle.ovs_worker.specs.Slots.{EndsSo};
ghost use Rattle.ovs_service.specs.Kept.{Kept};

use crate::worker_poller::{IdlePoller, UnusedPoller};
use ovs_service::{NodeService, ServiceAuthority};
use ovs_session::Limits;
use ovs_sync::history::GhostList;
use ovs_views::{NodeName, View};
use ovs_worker::{Poller, SessionResult, serve_many};
use std::alloc::Global;
use std::io::{Read, Write};
use std::sync::Wait;

/// What is left of a worker once it has served its readers.
#[derive(Drop)]
pub(crate) struct WorkerResult<K: NodeName, D: Poller + Drop> {
    pub(crate) view: View<K>,
    pub(crate) poller: IdlePoller<D>,
}

// What became of the sessions that a worker served: each ended so, and did what users are promised of it (`Kept` of `ovs_service`).
fn served_sessions_keep<K: NodeName, D: ServiceAuthority<K>, I: Read + Drop, O: Write + Drop>(
    served: &GhostList<SessionResult<NodeService<K, D>, I, O>>,
)
    requires told { ∥ AllByRecursion (λ s. EndsSo s.ended s.slot.session.ended) served.now ∥₁ }
    ensures kept { ∥ AllByRecursion (λ s. (session_id : ℕ) × (last : List Step) × Kept K.schema (D.replies session_id) (λ held. D.owes held session_id) (new_view last)
        (I.remaining s.slot.read_from.value) (I.remaining s.slot.reader.device) (O.contents s.slot.write_to.value) (O.contents s.slot.writer.device)
        s.slot.session.counts s.ended s.slot.session.state) served.now ∥₁ }
{
    let _ = served;
}

/// Serves the readers that this poller accepts, until no more come and all have ended.
pub(crate) fn serve_readers<K: NodeName, D: ServiceAuthority<K> + Drop, O: Poller + Drop, R: Wait>(
    rt: &R,
    alloc: Global,
    view: View<K>,
    desk: D,
    poller: UnusedPoller<O>,
    limits: Limits,
) -> WorkerResult<K, O>
    ensures closed { O.is_closed result.poller.poller }
{
    let poller = poller.into_poller();
    let mut service = NodeService::new(alloc, view, desk, poller.worker());
    let (_totals, poller, served) = serve_many(rt, alloc, &mut service, poller, limits);
    served_sessions_keep(&served);
    let (view, _desk) = service.into_parts();
    WorkerResult {
        view,
        poller: IdlePoller::new(poller),
    }
}
