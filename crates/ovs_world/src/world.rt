//! A source and its relays, and what passes between them.

ghost use Rattle.std.specs.Prelude.{◌≡◌, ◌↔◌, [], ◌++◌, ◌∷◌, ◌-◌, List, Option, Some, None, Ok, Err, IsTrue, IfOk, IfErr, IfSome, map, OnOk, OnErr, replicate, slice_set};
ghost use Rattle.std.specs.List.{AllByRecursion};
ghost use Rattle.serde_json.specs.View.{view};
ghost use Rattle.ovs_world.specs.Headline.{IsFaithful};
ghost use Rattle.ovs_world.specs.Nodes.{folded_in};
ghost use Rattle.ovs_world.specs.Steps.{RefusesCommit, RefusesTrim, RefusesConnect, RefusesDelivery, RefusesCut, RefusesRestart, RefusesMerge, RefusesPrune, RefusesRead, RefusesNew, RefusesRun, Steps, IsRun};
ghost use Rattle.ovs_world.specs.Worlds.{IsOpen, GoesOn, IsOpenIn, empty_store, new_world, HasNode, IsCount, AreSettled, CommitsTo, Renews, Connects, Brings, Cuts, Restarts, Merges, Prunes, Reads, cut_of, node_of};

use crate::delivering::deliver;
use crate::error::WorldError;
use crate::event::{Event, Reply};
use crate::holding::{Taken, merge_nodes, node, prune_store};
use crate::sim_session::SimSession;
use ovs_json::Json;
use ovs_links::{Folded, LinkStore};
use ovs_locks::LockTable;
use ovs_query::{read_only, transact_read};
use ovs_source::{FreshRows, Source};
use ovs_types::{NoMemory, RowId, Schema, TxnId};
use serde_json::Value;
use std::alloc::Global;
use std::marker::Model;
use std::mem;

/// The most relays of a world.
pub const MAX_RELAYS: usize = 9;

// Stores with no link.
fn empty_stores(alloc: Global, schema: &Schema, count: usize) -> Result<Vec<LinkStore>, NoMemory>
    ensures value { IfOk result (λ stores. stores.items ≡ replicate count (empty_store schema.now)) }
{
    let mut stores = Vec::new(alloc);
    for _ in 0..count {
        stores.push(LinkStore::new(alloc, schema)?)?;
    }
    Ok(stores)
}

// Whether there is a session here that isn't gone.
fn is_open(source: &LinkStore, relays: &[LinkStore], session: &Option<SimSession>) -> bool
    requires stands { IsOpen source.now relays.now session.now }
    ensures value { IsTrue result ↔ GoesOn source.now relays.now session.now }
{
    match session {
        Some(session) => !session.is_gone(node(source, relays, session.upstream)),
        None => false,
    }
}

// Takes out the session of this number, counted from 1, if it is open.
fn take_session(
    source: &LinkStore,
    relays: &[LinkStore],
    sessions: &mut [Option<SimSession>],
    number: usize,
) -> Option<SimSession>
    requires stand { AllByRecursion (IsOpen source.now relays.now) sessions.old }
    ensures taken { IfSome result (λ s. IsOpenIn source.now relays.now sessions.old number s × (sessions.new ≡ slice_set sessions.old (number - 1) None)) }
    ensures none { result ≡ None → ((s : _) → ¬ (IsOpenIn source.now relays.now sessions.old number s)) × (sessions.new ≡ sessions.old) }
{
    if number == 0 || number > sessions.len() {
        return None;
    }
    if !is_open(source, relays, &sessions[number - 1]) {
        return None;
    }
    sessions[number - 1].take()
}

fn push_session(sessions: &mut Vec<Option<SimSession>>, session: SimSession) -> Result<(), NoMemory>
    ensures pushed { OnOk result (sessions.new.items ≡ sessions.old.items ++ Some session ∷ []) }
    ensures unchanged { OnErr result (sessions.new.items ≡ sessions.old.items) }
{
    sessions.push(Some(session))?;
    Ok(())
}

// Cuts a session, if it is open and the relay is one of its ends.
fn cut_if_end(session: &mut Option<SimSession>, relay: usize)
    ensures cut { session.new ≡ cut_of relay session.old }
{
    if let Some(open) = session
        && open.has_end(relay)
    {
        // by a call, which spares this function's proof the drop of each part
        mem::drop(session.take());
    }
}

// Cuts each session of which the relay is an end.
fn cut_sessions_of(sessions: &mut [Option<SimSession>], relay: usize)
    ensures cut { sessions.new ≡ map (cut_of relay) sessions.old }
{
    for session in sessions.iter_mut() {
        cut_if_end(session, relay);
    }
}

/// A source, relays that follow it or one another, and what is on its way between them. Node 0 is the source, and relays are
/// counted from 1, as sessions are. Whatever is called, the nodes are faithful to the source's history.
#[derive(Drop)]
pub struct World {
    source: Source,
    fresh: FreshRows,
    relays: Vec<LinkStore>,
    // In the order of their opening; `None` where one was cut.
    sessions: Vec<Option<SimSession>>,
}

impl Model for World {
    ghost use Rattle.std.specs.Prelude.{ℕ, List, Option, refl};
    ghost use Rattle.std.specs.Coded.{code_by, coded×, coded_ℕ, coded_list, coded_option};
    ghost use Rattle.ovs_links.specs.contracts.store.LinkStore as store_row;
    ghost use Rattle.ovs_links.specs.Store.{Stored};
    ghost use Rattle.ovs_world.specs.contracts.sim_session.SimSession as session_row;
    ghost use Rattle.ovs_world.specs.declared.sim_session.SimSession.{SimSession};
    ghost use Rattle.ovs_world.specs.Worlds.{WorldValue, IsWorld};

    ghost Value = { WorldValue };

    ghost coded = { code_by (Stored × (ℕ × (List Stored × List (Option SimSession))))
        (coded× store_row.the_row.coded (coded× coded_ℕ (coded× (coded_list store_row.the_row.coded) (coded_list (coded_option session_row.the_row.coded)))))
        (λ w. (w.source, (w.fresh, (w.relays, w.sessions))))
        (λ p. record { source = p.0; fresh = p.1.0; relays = p.1.1.0; sessions = p.1.1.1 }) (λ _. refl) };

    ghost view = { λ w. record { source = w.source; fresh = w.fresh; relays = w.relays.items; sessions = w.sessions.items } };

    ghost invariant = { λ w. IsWorld (record { source = w.source; fresh = w.fresh; relays = w.relays.items; sessions = w.sessions.items }) };
}

impl World {
    /// A source and so many relays, none of which has a link, and no session.
    ///
    /// # Errors
    /// `BadCount` unless there are one to nine relays, or `NoMemory`.
    pub fn new(alloc: Global, schema: &Schema, relays: usize) -> Result<World, WorldError>
        ensures value { IfOk result (λ w. w ≡ new_world schema.now relays) }
        ensures count { OnOk result (IsCount relays) }
        ensures refused { IfErr result (RefusesNew relays) }
    {
        if relays == 0 || relays > MAX_RELAYS {
            return Err(WorldError::BadCount);
        }
        Ok(World {
            source: Source::new(alloc, schema)?,
            fresh: FreshRows::new(RowId::from(1)),
            relays: empty_stores(alloc, schema, relays)?,
            sessions: Vec::new(alloc),
        })
    }

    /// A whole story: a new world, to which these events happen, one after another. Each node is settled then, so it has the
    /// source's database after the longest unbroken chain of the source's links that it holds, and nodes with the same links
    /// have the same database.
    ///
    /// # Errors
    /// `BadCount` and `NoMemory` as of [`World::new`], and what the first event that is refused is refused for.
    pub fn run(
        alloc: Global,
        schema: &Schema,
        relays: usize,
        events: &[Event],
    ) -> Result<World, WorldError>
        ensures run { IfOk result (λ w. IsRun (new_world schema.now relays) events.now w) }
        ensures count { OnOk result (IsCount relays) }
        ensures faithful { IfOk result (λ w. IsFaithful w.source w.relays) }
        ensures settled { IfOk result AreSettled }
        ensures refused { IfErr result (RefusesRun schema.now relays events.now) }
    {
        let mut world = World::new(alloc, schema, relays)?;
        for event in events {
            world.step(alloc, event)?;
        }
        Ok(world)
    }

    /// What the source has folded: the latest epoch of its history.
    ///
    /// The links of each node are links of the source's history. A node that is settled has the source's database after the
    /// longest unbroken chain of the source's links that it holds, and settled nodes with the same links have the same database.
    pub fn history(&self) -> &Folded
        ensures value { result.now ≡ folded_in self.now.source }
        ensures faithful { IsFaithful self.now.source self.now.relays }
    {
        let _ = &self.relays;
        self.source.store().folded()
    }

    /// The store of a node: 0 is the source. `None` where there is no node of this number.
    pub fn store(&self, node: usize) -> Option<&LinkStore>
        ensures some { IfSome result (λ store. HasNode self.now node × (store.now ≡ node_of self.now node)) }
        ensures none { result ≡ None → ¬ (HasNode self.now node) }
    {
        if node > self.relays.len() {
            return None;
        }
        Some(crate::holding::node(self.source.store(), &self.relays, node))
    }

    /// What becomes of an event: the call of its name. All that holds of the nodes ([`World::history`]) holds after it.
    ///
    /// # Errors
    /// Those of that call.
    pub fn step(&mut self, alloc: Global, event: &Event) -> Result<Reply, WorldError>
        ensures steps { Steps self.old event.now result self.new }
        ensures faithful { IsFaithful self.new.source self.new.relays }
        ensures settled { OnOk result (AreSettled self.old → AreSettled self.new) }
    {
        let reply = self.happen(alloc, event);
        // The nodes are faithful at every moment.
        let _ = self.history();
        reply
    }

    // The call of an event's name.
    fn happen(&mut self, alloc: Global, event: &Event) -> Result<Reply, WorldError>
        ensures steps { Steps self.old event.now result self.new }
        ensures settled { OnOk result (AreSettled self.old → AreSettled self.new) }
    {
        match event {
            Event::Commit { id, operations } => Ok(Reply::Results(self.commit(
                alloc,
                *id,
                operations.as_slice(),
            )?)),
            Event::Trim { id } => {
                self.trim(alloc, *id)?;
                Ok(Reply::Done)
            }
            Event::Connect { relay, upstream } => {
                Ok(Reply::Session(self.connect(alloc, *relay, *upstream)?))
            }
            Event::Deliver { session, bytes } => {
                let Taken { took, held } = self.deliver(alloc, *session, *bytes)?;
                Ok(Reply::Took { took, held })
            }
            Event::Cut { session } => {
                self.cut(*session)?;
                Ok(Reply::Done)
            }
            Event::Restart { relay } => {
                self.restart(alloc, *relay)?;
                Ok(Reply::Done)
            }
            Event::MergeFrom { into, from } => {
                self.merge(alloc, *into, *from)?;
                Ok(Reply::Done)
            }
            Event::Prune { relay } => Ok(Reply::Dropped(self.prune(alloc, *relay)?)),
            Event::Read { node, operations } => Ok(Reply::Results(self.read(
                alloc,
                *node,
                operations.as_slice(),
            )?)),
        }
    }

    /// The source carries out operations (RFC 7047 section 4.1.3), for a session that owns no lock. The commit that they make,
    /// if they change the database, has this id. The results, one for each operation.
    ///
    /// # Errors
    /// `IdTaken`, `RowIdsSpent`, `Full` or `NoMemory`, as of [`Source::transact`]. Nothing is changed then.
    pub(crate) fn commit(
        &mut self,
        alloc: Global,
        id: TxnId,
        operations: &[Value],
    ) -> Result<Json, WorldError>
        ensures commits { IfOk result (λ results. CommitsTo self.old id (map view operations.now) results self.new) }
        ensures settled { OnOk result (AreSettled self.old → AreSettled self.new) }
        ensures refused { IfErr result (λ e. RefusesCommit self.old id (map view operations.now) e self.new) }
    {
        let locks = LockTable::new(alloc);
        let outcome = self
            .source
            .transact(alloc, 0, operations, id, &mut self.fresh, &locks)?;
        // Its store is one, as of every call that looks at its head.
        let _ = self.source.store().head();
        Ok(outcome.results)
    }

    /// The source begins a new epoch: all links of its chain give way to one, a commit of this id that inserts all rows.
    ///
    /// # Errors
    /// `IdTaken`, `EpochsSpent`, `Full` or `NoMemory`, as of [`Source::trim`]. Nothing is changed then.
    pub(crate) fn trim(&mut self, alloc: Global, id: TxnId) -> Result<(), WorldError>
        ensures renews { OnOk result (Renews self.old id self.new) }
        ensures settled { OnOk result (AreSettled self.old → AreSettled self.new) }
        ensures refused { IfErr result (λ e. RefusesTrim self.old id e self.new) }
    {
        self.source.trim(alloc, id)?;
        // Its store is one, as of every call that looks at its head.
        let _ = self.source.store().head();
        Ok(())
    }

    /// Cuts a session: what is on its way is lost.
    ///
    /// # Errors
    /// `NoSession` where none of this number is open; nothing is changed then.
    pub(crate) fn cut(&mut self, session: usize) -> Result<(), WorldError>
        ensures cuts { OnOk result (Cuts self.old session self.new) }
        ensures settled { OnOk result (AreSettled self.old → AreSettled self.new) }
        ensures refused { IfErr result (λ e. RefusesCut self.old session e × (self.new ≡ self.old)) }
    {
        let Some(open) = take_session(
            self.source.store(),
            &self.relays,
            &mut self.sessions,
            session,
        ) else {
            return Err(WorldError::NoSession);
        };
        // by a call, which spares this function's proof the drop of each part
        mem::drop(open);
        Ok(())
    }

    /// Opens a session in which a relay asks another node for what comes after its own last id. The session's number.
    ///
    /// # Errors
    /// Nothing is changed by any of them:
    /// - `NoSuchNode`: there is no relay of this number, or no other node of that.
    /// - `TooLarge`: the request is above the limits, since the schema's name is too long.
    /// - `NoMemory`.
    pub(crate) fn connect(
        &mut self,
        alloc: Global,
        relay: usize,
        upstream: usize,
    ) -> Result<usize, WorldError>
        ensures connects { IfOk result (λ number. Connects self.old relay upstream number self.new) }
        ensures settled { OnOk result (AreSettled self.old → AreSettled self.new) }
        ensures refused { IfErr result (λ e. RefusesConnect self.old relay upstream e × (self.new ≡ self.old)) }
    {
        let count = self.relays.len();
        if relay == 0 || relay > count || upstream > count || relay == upstream {
            return Err(WorldError::NoSuchNode);
        }
        let asked = self.relays[relay - 1].head();
        let followed = node(self.source.store(), &self.relays, upstream);
        let session = SimSession::open(alloc, relay, upstream, asked, followed)?;
        push_session(&mut self.sessions, session)?;
        Ok(self.sessions.len())
    }

    /// Delivers up to so many bytes of what is on its way to a session's relay. Whenever nothing is in flight, the node that
    /// it follows tells what it hasn't told yet. How many links the relay was told that it didn't hold, and how many it did.
    ///
    /// # Errors
    /// `NoSession` where none of this number is open; nothing is changed then. By the others the session is cut, and what
    /// the relay took before stays:
    /// - `TooLarge`: these bytes make a message above the limits, and those before it were heard; or what the relay has to ask
    ///   then is above them.
    /// - `NoMemory`.
    pub(crate) fn deliver(
        &mut self,
        alloc: Global,
        session: usize,
        bytes: usize,
    ) -> Result<Taken, WorldError>
        ensures brings { IfOk result (λ counts. Brings self.old session bytes counts self.new) }
        ensures settled { OnOk result (AreSettled self.old → AreSettled self.new) }
        ensures refused { IfErr result (λ e. RefusesDelivery self.old session bytes e self.new) }
    {
        let Some(mut open) = take_session(
            self.source.store(),
            &self.relays,
            &mut self.sessions,
            session,
        ) else {
            return Err(WorldError::NoSession);
        };
        let counts = deliver(
            alloc,
            self.source.store(),
            &mut self.relays,
            &mut open,
            bytes,
        )?;
        self.sessions[session - 1] = Some(open);
        Ok(counts)
    }

    /// A relay begins anew, with no link, and each session of which it is an end is cut.
    ///
    /// # Errors
    /// `NoSuchNode` where there is no relay of this number, or `NoMemory`. Nothing is changed then.
    pub(crate) fn restart(&mut self, alloc: Global, relay: usize) -> Result<(), WorldError>
        ensures restarts { OnOk result (Restarts self.old relay self.new) }
        ensures settled { OnOk result (AreSettled self.old → AreSettled self.new) }
        ensures refused { IfErr result (λ e. RefusesRestart self.old relay e × (self.new ≡ self.old)) }
    {
        if relay == 0 || relay > self.relays.len() {
            return Err(WorldError::NoSuchNode);
        }
        let store = LinkStore::new(alloc, self.source.store().schema())?;
        cut_sessions_of(&mut self.sessions, relay);
        self.relays[relay - 1] = store;
        Ok(())
    }

    /// A relay gets all links that another node holds, and settles. They are of one history, so none contradicts another.
    ///
    /// # Errors
    /// - `NoSuchNode`: there is no relay of this number, or no other node of that; nothing is changed then.
    /// - `NoMemory`: either nothing is changed, or the relay has the links, and less is folded than could be.
    pub(crate) fn merge(
        &mut self,
        alloc: Global,
        into: usize,
        from: usize,
    ) -> Result<(), WorldError>
        ensures merges { OnOk result (Merges self.old into from self.new) }
        ensures settled { OnOk result (AreSettled self.old → AreSettled self.new) }
        ensures refused { IfErr result (λ e. RefusesMerge self.old into from e self.new) }
    {
        let count = self.relays.len();
        if into == 0 || into > count || from > count || into == from {
            return Err(WorldError::NoSuchNode);
        }
        merge_nodes(alloc, self.source.store(), &mut self.relays, into, from)
    }

    /// A relay settles, and drops the links that can be reached, prev to id, from a lower start than that of its chain. How many
    /// they were. What is folded stays, and so does each session.
    ///
    /// # Errors
    /// - `NoSuchNode` where there is no relay of this number; nothing is changed then.
    /// - `NoMemory`: the relay has the same links, and less is folded than could be.
    pub(crate) fn prune(&mut self, alloc: Global, relay: usize) -> Result<usize, WorldError>
        ensures prunes { IfOk result (λ n. Prunes self.old relay n self.new) }
        ensures settled { OnOk result (AreSettled self.old → AreSettled self.new) }
        ensures refused { IfErr result (λ e. RefusesPrune self.old relay e self.new) }
    {
        if relay == 0 || relay > self.relays.len() {
            return Err(WorldError::NoSuchNode);
        }
        prune_store(alloc, &mut self.relays[relay - 1])
    }

    /// A node carries out operations that only read, all from the database that it has. The results, one for each operation.
    ///
    /// # Errors
    /// - `NoSuchNode`: there is no node of this number.
    /// - `NotReadOnly`: an operation is neither a "select" nor a "comment".
    /// - `NoMemory`.
    pub(crate) fn read(
        &self,
        alloc: Global,
        node: usize,
        operations: &[Value],
    ) -> Result<Json, WorldError>
        ensures reads { IfOk result (Reads self.now node (map view operations.now)) }
        ensures refused { IfErr result (RefusesRead self.now node (map view operations.now)) }
    {
        let Some(store) = self.store(node) else {
            return Err(WorldError::NoSuchNode);
        };
        if !read_only(operations) {
            return Err(WorldError::NotReadOnly);
        }
        Ok(Json::new(transact_read(alloc, store.database(), operations)?))
    }
}
