//! A node serves its readers.
ghost use Rattle.std.specs.Prelude.{◌≡◌, ◌<◌, ◌++◌, ◌∷◌, ◌+◌, ◌*◌, [], ℕ, List, Contains, Ok, Err, true, false, IfOk, IfSome, OnOk, OnErr};
ghost use mathlib.Core.List.{IsPrefix};
ghost use Rattle.ovs_session.specs.Messages.{SaysNothing};
ghost use Rattle.ovs_links.specs.declared.step.Step.{Step};
ghost use Rattle.ovs_service.specs.Calls.{IsAllTold};
ghost use Rattle.ovs_service.specs.Client.{new_client, AnswersFrom, AnswersTo, TellsOf, TellsNew, MayAsk, IsAnswered, HasAll, HasBegunAnew, Hears, IsTold, ClientValue};

use crate::client::Client;
use crate::service_authority::ServiceAuthority;
use crate::session_token::SessionToken;
use ovs_json::SessionId;
use ovs_session::{Outbox, Service, ServiceError, TurnProgress, read_message};
use ovs_views::{NodeName, Told, View};
use ovs_wire::Message;
use ovs_worker::{AcceptingHost, SessionHost};
use std::alloc::Global;

// Whether a session is to be told more, where this was all that is new, or wasn't.
fn progress_of<K: NodeName>(is_all: bool, client: &Client<K>) -> TurnProgress
    ensures all { result ≡ TurnProgress.Idle → (is_all ≡ true) × (client.now.due ≡ []) }
{
    if is_all && client.is_settled() {
        TurnProgress::Idle
    } else {
        TurnProgress::Busy
    }
}

// So many workers can be told apart by the numbers of their sessions.
const WORKERS: u64 = 64;

/// The worker whose service gave a session this number.
pub fn worker_of(session_id: SessionId) -> usize
    ensures worker { (worker begun : ℕ) → worker < 64 → session_id ≡ begun * 64 + worker → result ≡ worker }
{
    (session_id % WORKERS) as usize
}

/// The service of a worker's readers: each message is answered from a view of what is published, or by the authority where only
/// the source can answer, and each reader is told what its monitors show and what the authority owes it.
pub struct NodeService<K: NodeName, D: ServiceAuthority<K>> {
    alloc: Global,
    view: View<K>,
    desk: D,
    // The view said that what is published can't be read any more.
    is_gone: bool,
    // The number of the worker, below that of workers that can be told apart.
    worker: u64,
    // How many sessions it has begun.
    begun: u64,
}

impl<K: NodeName, D: ServiceAuthority<K>> NodeService<K, D> {
    /// The service by this view and this authority, of the worker of this number. Workers of one node have numbers below 64.
    pub fn new(alloc: Global, view: View<K>, desk: D, worker: usize) -> NodeService<K, D>
        ensures view { result.view ≡ view }
        ensures desk { result.desk ≡ desk }
        ensures here { result.is_gone ≡ false }
        ensures begun { result.begun ≡ 0 }
        ensures number { (result.worker < 64) × (worker < 64 → result.worker ≡ worker) }
    {
        NodeService {
            alloc,
            view,
            desk,
            is_gone: false,
            worker: worker as u64 % WORKERS,
            begun: 0,
        }
    }

    /// Its view and its authority.
    pub fn into_parts(self) -> (View<K>, D)
        ensures view { result.0 ≡ self.view }
        ensures desk { result.1 ≡ self.desk }
    {
        let NodeService {
            alloc: _,
            view,
            desk,
            is_gone: _,
            worker: _,
            begun: _,
        } = self;
        (view, desk)
    }

    /// From now on readers are shown no less than this.
    pub fn learn(&mut self, told: &Told<K>)
        ensures kept { IsPrefix self.old.view self.new.view }
        ensures told { IsPrefix told.now self.new.view }
        ensures desk { self.new.desk ≡ self.old.desk }
        ensures gone { self.new.is_gone ≡ self.old.is_gone }
        ensures begun { self.new.begun ≡ self.old.begun }
    {
        self.view.learn(told);
    }

    // Hears a message, and notes where the view is gone. After a refusal nothing has changed of the client.
    fn hear(&mut self, client: &mut Client<K>, message: Message) -> Result<(), ServiceError>
        ensures heard { OnOk result (Hears K.schema self.new.view message client.old client.new) }
        ensures unchanged { OnErr result (client.new ≡ client.old) }
        ensures never_bad { result ≡ Err ServiceError.BadInput → ⊥ }
        ensures gone { result ≡ Err ServiceError.Gone → self.new.is_gone ≡ true }
        ensures epoch { result ≡ Err ServiceError.Epoch → HasBegunAnew K.schema self.new.view client.new }
        ensures desk { self.new.desk ≡ self.old.desk }
        ensures begun { (self.new.begun ≡ self.old.begun) × (self.new.worker ≡ self.old.worker) }
    {
        let heard = client.hear(self.alloc, &mut self.view, message);
        self.is_gone = matches!(heard, Err(ServiceError::Gone));
        heard
    }

    // What monitors tell in one call is due then, and it is noted where the view is gone. After a refusal nothing has changed of the
    // client.
    fn pump(&mut self, client: &mut Client<K>) -> Result<bool, ServiceError>
        ensures told { OnOk result (IsTold K.schema self.new.view client.old client.new) }
        ensures all { IfOk result (λ is_all. is_all ≡ true → IsAllTold client.new.session) }
        ensures unchanged { OnErr result (client.new ≡ client.old) }
        ensures never_bad { result ≡ Err ServiceError.BadInput → ⊥ }
        ensures gone { result ≡ Err ServiceError.Gone → self.new.is_gone ≡ true }
        ensures epoch { result ≡ Err ServiceError.Epoch → HasBegunAnew K.schema self.new.view client.new }
        ensures desk { self.new.desk ≡ self.old.desk }
        ensures begun { (self.new.begun ≡ self.old.begun) × (self.new.worker ≡ self.old.worker) }
    {
        let is_all_told = client.pump(self.alloc, &mut self.view);
        self.is_gone = matches!(is_all_told, Err(ServiceError::Gone));
        is_all_told
    }

    // Tells the changes that the client's monitors show, as many as one call tells, and once these are all told, collects what the
    // authority owes it. Idle only where nothing more is to be told now. After a refusal nothing has changed of the client.
    fn tell_new(
        &mut self,
        client: &mut Client<K>,
        out: &mut Outbox,
    ) -> Result<TurnProgress, ServiceError>
        requires settled { client.old.due ≡ [] }
        ensures told { OnOk result ((said : List ℕ) × TellsOf K.schema D.replies D.owes self.new.view client.old said client.new × (out.new ≡ out.old ++ said)) }
        ensures all { result ≡ Ok TurnProgress.Idle → HasAll self.new.view client.new }
        ensures unchanged { OnErr result ((client.new ≡ client.old) × (out.new ≡ out.old)) }
        ensures never_bad { result ≡ Err ServiceError.BadInput → ⊥ }
        ensures gone { result ≡ Err ServiceError.Gone → self.new.is_gone ≡ true }
        ensures epoch { result ≡ Err ServiceError.Epoch → HasBegunAnew K.schema self.new.view client.new }
        ensures none_ended { D.ended self.new.desk ≡ D.ended self.old.desk }
        ensures begun { (self.new.begun ≡ self.old.begun) × (self.new.worker ≡ self.old.worker) }
    {
        let is_all_told = self.pump(client)?;
        let is_all = client.collect(self.alloc, is_all_told, &mut self.view, &mut self.desk);
        client.flush(self.alloc, &mut self.desk, out);
        Ok(progress_of(is_all, client))
    }
}

impl<K: NodeName, D: ServiceAuthority<K>> Service for NodeService<K, D> {
    type Session = Client<K>;

    ghost answers = { λ old text said new. AnswersTo K.schema D.replies D.owes old text said new };

    ghost tells = { λ old said new. TellsNew K.schema D.replies D.owes old said new };

    ghost refuses = { λ _ text. SaysNothing text };

    ghost may_answer = { λ client. MayAsk client };

    ghost is_answered = { λ client. IsAnswered client };

    ghost is_told = { λ service client. HasAll service.view client };

    ghost may_tell = { λ _ _. Unit {0} };

    ghost is_gone = { λ service. service.is_gone ≡ true };

    ghost is_over = { λ service client. HasBegunAnew K.schema service.view client };

    // A message is taken where nothing is due and fewer than 128 asks wait for their replies.
    fn takes(&self, client: &Client<K>) -> bool {
        client.takes()
    }

    fn awaits(&self, client: &Client<K>) -> bool {
        client.awaits()
    }

    /// Answers a message from what the view shows. What can't be said for want of memory stays due, and is said before all that
    /// comes after it.
    ///
    /// `BadInput` where the text says no message; `Gone` where the view is gone, and from then on; `Epoch` where what the view shows
    /// begins anew behind what the client was shown.
    fn answer(
        &mut self,
        client: &mut Client<K>,
        text: &[u8],
        out: &mut Outbox,
    ) -> Result<(), ServiceError>
        ensures ok { OnOk result ((said : List ℕ) × AnswersTo K.schema D.replies D.owes client.old text.now said client.new × (out.new ≡ out.old ++ said)) }
        ensures err { OnErr result ((client.new ≡ client.old) × (out.new ≡ out.old)) }
        ensures bad { result ≡ Err ServiceError.BadInput → SaysNothing text.now }
        ensures gone { result ≡ Err ServiceError.Gone → self.new.is_gone ≡ true }
        ensures epoch { result ≡ Err ServiceError.Epoch → HasBegunAnew K.schema self.new.view client.new }
        ensures shown { OnOk result ((said : List ℕ) × AnswersFrom K.schema D.replies D.owes self.new.view client.old text.now said client.new × (out.new ≡ out.old ++ said)) }
        ensures still_gone { self.old.is_gone ≡ true → result ≡ Err ServiceError.Gone }
        ensures none_ended { D.ended self.new.desk ≡ D.ended self.old.desk }
        ensures begun { (self.new.begun ≡ self.old.begun) × (self.new.worker ≡ self.old.worker) }
    {
        if self.is_gone {
            return Err(ServiceError::Gone);
        }
        let message = read_message(self.alloc, text)?;
        self.hear(client, message)?;
        client.flush(self.alloc, &mut self.desk, out);
        Ok(())
    }

    /// Says the messages that are due, then the changes that the client's monitors see in the view, and then the messages that the
    /// authority owes it. It is busy where that is cut short: by the bounds of a call, or since memory ran out after something was done.
    ///
    /// `NoMemory` where memory ran out before something was done; `Gone` and `Epoch` as `answer`.
    fn tell(
        &mut self,
        client: &mut Client<K>,
        out: &mut Outbox,
    ) -> Result<TurnProgress, ServiceError>
        ensures ok { OnOk result ((said : List ℕ) × TellsNew K.schema D.replies D.owes client.old said client.new × (out.new ≡ out.old ++ said)) }
        ensures err { OnErr result ((client.new ≡ client.old) × (out.new ≡ out.old)) }
        ensures bad { result ≡ Err ServiceError.BadInput → ⊥ }
        ensures told { result ≡ Ok TurnProgress.Idle → HasAll self.new.view client.new }
        ensures more { result ≡ Ok TurnProgress.Busy → Unit {0} }
        ensures gone { result ≡ Err ServiceError.Gone → self.new.is_gone ≡ true }
        ensures epoch { result ≡ Err ServiceError.Epoch → HasBegunAnew K.schema self.new.view client.new }
        ensures shown { OnOk result ((said : List ℕ) × TellsOf K.schema D.replies D.owes self.new.view client.old said client.new × (out.new ≡ out.old ++ said)) }
        ensures still_gone { self.old.is_gone ≡ true → result ≡ Err ServiceError.Gone }
        ensures none_ended { D.ended self.new.desk ≡ D.ended self.old.desk }
        ensures begun { (self.new.begun ≡ self.old.begun) × (self.new.worker ≡ self.old.worker) }
    {
        if self.is_gone {
            return Err(ServiceError::Gone);
        }
        let is_changed = client.flush(self.alloc, &mut self.desk, out);
        if !client.is_settled() {
            return if is_changed {
                Ok(TurnProgress::Busy)
            } else {
                Err(ServiceError::NoMemory)
            };
        }
        match self.tell_new(client, out) {
            Ok(progress) => Ok(progress),
            Err(_) if is_changed => Ok(TurnProgress::Busy),
            Err(refusal) => Err(refusal),
        }
    }
}

impl<K: NodeName, D: ServiceAuthority<K>> SessionHost for NodeService<K, D> {
    ghost begins = { λ client. (session_id : ℕ) × (last : List Step) × (client ≡ new_client session_id last) };

    ghost is_silent = { λ service client. Contains (D.ended service.desk) client.session_id };

    fn end(&mut self, client: &Client<K>)
        ensures silent { Contains (D.ended self.new.desk) client.now.session_id }
        ensures stays { (other : ClientValue) → Contains (D.ended self.old.desk) other.session_id → Contains (D.ended self.new.desk) other.session_id }
        ensures ended { D.ended self.new.desk ≡ D.ended self.old.desk ++ client.now.session_id ∷ [] }
        ensures begun { (self.new.begun ≡ self.old.begun) × (self.new.worker ≡ self.old.worker) }
    {
        self.desk.end_session(client.token());
    }
}

impl<K: NodeName, D: ServiceAuthority<K>> AcceptingHost for NodeService<K, D> {
    /// A reader of which nothing was heard yet, and which is shown no less than what the view knows. Its number is the worker's, and
    /// how many sessions began before: so no two sessions of a worker have one. `None` where numbers have run out.
    fn begin(&mut self) -> Option<Client<K>>
        ensures begins { IfSome result (λ client. client ≡ new_client (self.old.begun * 64 + self.old.worker) self.old.view) }
        ensures next { IfSome result (λ _. self.new.begun ≡ self.old.begun + 1) }
        ensures worker { self.new.worker ≡ self.old.worker }
    {
        let begun = self.begun.checked_add(1)?;
        let session_id = self.begun.checked_mul(WORKERS)?.checked_add(self.worker)?;
        self.begun = begun;
        let token = SessionToken::new(session_id);
        Some(Client::new(self.alloc, token, self.view.known()))
    }

    // What is published is seen at the next entry, so that there is nothing to note.
    fn woken(&mut self) {}
}
