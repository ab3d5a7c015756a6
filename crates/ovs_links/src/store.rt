//! A store of links with their longest chain.

ghost use Rattle.std.specs.Prelude.{◌≡◌, ◌≢◌, ◌≤◌, ◌<◌, ◌+◌, ◌↔◌, [], ◌∷◌, IsTrue, IfOk, IfSome, OnOk, OnErr, Some, length, take, true, false};
ghost use Rattle.std.specs.FinMap as map;
ghost use Rattle.std.specs.Option.{option_copied};
ghost use Rattle.ovs_rows.specs.Row.{no_rows};
ghost use Rattle.ovs_rows.specs.After.{fits};
ghost use Rattle.ovs_links.specs.Link.{IsStart};
ghost use Rattle.ovs_links.specs.Pruning.{IsPruned};
ghost use Rattle.ovs_links.specs.Restarting.{RestartsAs, after_restart};
ghost use Rattle.ovs_links.specs.Sets.{Holds, Among, IsOfTables};
ghost use Rattle.ovs_links.specs.Chains.{head_after};
ghost use Rattle.ovs_links.specs.Steps.{folded_of};
ghost use Rattle.ovs_links.specs.StepChains.{IsFoldedChain};
ghost use Rattle.ovs_links.specs.Store.{Stored, IsStore, IsChainOf, tables_of, start_in, head_of, rows_of, at_number, max_links};
ghost use Rattle.ovs_links.specs.Answers.{SettlesAs, EndsAs, TakesAs, AppendsAs, after_append, AreOfOneSource, IsFork};
ghost use Rattle.ovs_links.specs.Merging.{MergesAs, IsMergeFork};
ghost use Rattle.ovs_links.specs.Outcomes.{take_answer, TellsTaking, after_take, with_links, merge_answer, TellsMerging, after_merge};
ghost use Rattle.ovs_links.specs.Settling.{KeepsLinks, IsWholeChain, chain_of, settled_of, after_settle};
ghost use Rattle.ovs_links.specs.declared.link.Link.{Link};

use crate::answer::{By, MergeError, Settled, TakeError, Took};
use crate::beside::{Beside, beside_link};
use crate::folded::Folded;
use crate::held::HeldLinks;
use crate::link::Link;
use crate::merging::merge_into;
use crate::pruning::prune_below;
use crate::settling::{add_and_fold, settle_links};
use crate::starting::add_and_begin;
use crate::taking::take_into;
use ovs_rows::Database;
use ovs_types::{NoMemory, Schema, TxnId};
use std::alloc::Global;
use std::marker::Model;

/// How many links a store takes.
pub const MAX_LINKS: usize = 1_000_000;

/// Links that don't contradict each other, with the longest chain of them folded into a database.
///
/// The chain begins with no rows at the greatest start from which a held link fits no rows, or at the id 0. Links that don't stand on it are parked: they wait for a link before
/// them. At all times the folded links are a beginning of the chain, or of a chain from a lower start.
#[derive(Drop)]
pub struct LinkStore {
    alloc: Global,
    held: HeldLinks,
    folded: Folded,
}

impl Model for LinkStore {
    ghost use Rattle.std.specs.Prelude.{◌≡◌, List, refl};
    ghost use Rattle.std.specs.FinMap as map;
    ghost use Rattle.std.specs.Ordering.{nat_cmp};
    ghost use Rattle.std.specs.Coded.{code_by, coded×, coded_ℕ, coded_list};
    ghost use Rattle.ovs_types.specs.declared.schema.Schema.{Schema};
    ghost use Rattle.ovs_types.specs.contracts.schema.Schema as schema_row;
    ghost use Rattle.ovs_links.specs.contracts.link.Link as link_row;
    ghost use Rattle.ovs_links.specs.declared.link.Link.{Link};
    ghost use Rattle.ovs_links.specs.Store.{Stored};
    ghost use Rattle.ovs_links.specs.Kept.{IsKept, stored_of};

    ghost Value = { Stored };

    ghost coded = { code_by (Schema × (map.FinMap nat_cmp Link × List Link))
        (coded× schema_row.the_row.coded
        (coded× (map.code coded_ℕ link_row.the_row.coded) (coded_list link_row.the_row.coded)))
        (λ s. (s.schema, (s.links, s.folded)))
        (λ p. record { schema = p.0; links = p.1.0; folded = p.1.1 }) (λ _. refl) };

    ghost view = { λ s. stored_of s.held s.folded };

    ghost invariant = { λ s. IsKept s.held s.folded };
}

impl LinkStore {
    /// A store with no link, over databases of this schema. `NoMemory` where memory is refused.
    pub fn new(alloc: Global, schema: &Schema) -> Result<LinkStore, NoMemory>
        ensures value { IfOk result (λ s. s ≡ record { schema = schema.now; links = map.empty; folded = [] }) }
    {
        Ok(LinkStore {
            alloc,
            held: HeldLinks::new(alloc),
            folded: Folded::new(alloc, schema)?,
        })
    }

    /// Adds a link, and folds nothing. `Held` where this very link is held, and nothing is added; `New` where it
    /// wasn't, and is now. In this order of refusals: `Fork` where it contradicts a held link, which is named, by prev
    /// before id; `Full` where the store has `MAX_LINKS` links; `NoMemory`. A refused link is handed back, and the
    /// store is as it was.
    pub fn take(&mut self, link: Link) -> Result<Took, TakeError>
        requires of_tables { IsOfTables (tables_of self.old) link }
        ensures answer { TakesAs self.old.links link result }
        ensures exact { TellsTaking (take_answer self.old.links link) link result }
        ensures after { self.new ≡ after_take self.old link result }
        ensures store { IsStore self.new }

        // Links of one history are never refused as contradictions.
        ensures source { AreOfOneSource (tables_of self.old) (Holds self.old.links) (Among (link ∷ [])) → ¬ (IsFork result) }
    {
        take_into(&mut self.held, link)
    }

    /// Adds a link that follows the head and fits the database, and folds it. No other link may follow the head, as
    /// after `Done`. In this order of refusals: `Fork` where another held link has its id; `Full` where the store has
    /// `MAX_LINKS` links; `NoMemory`. A refused link is handed back, and the store is as it was, its database too. A
    /// parked link that follows this one stays parked until `settle`.
    pub fn append(&mut self, alloc: Global, link: Link) -> Result<(), TakeError>
        requires of_tables { IsOfTables (tables_of self.old) link }
        requires done { SettlesAs self.old Settled.Done }
        requires next { link.prev ≡ head_of self.old }
        requires fits { fits (rows_of self.old) link.change ≡ true }
        ensures answer { AppendsAs self.old.links link result }
        ensures after { self.new ≡ after_append self.old link result }

        // Links of one history are never refused as contradictions.
        ensures source { AreOfOneSource (tables_of self.old) (Holds self.old.links) (Among (link ∷ [])) → ¬ (IsFork result) }

        // The folded links are still the longest chain, where none that was parked follows this one.
        ensures longest { OnOk result (EndsAs self.new Settled.Done → IsChainOf self.new self.new.folded) }
    {
        if let Some(held) = self.held.with_id(link.id()) {
            return Err(TakeError::Fork {
                by: By::Id,
                held_prev: held.prev(),
                held_id: held.id(),
                link,
            });
        }
        if self.len() >= MAX_LINKS {
            return Err(TakeError::Full { link });
        }
        if let Err(NoMemory) = add_and_fold(alloc, &mut self.held, &mut self.folded, &link) {
            return Err(TakeError::NoMemory { link });
        }
        Ok(())
    }

    /// Adds a link from a greater start that fits no rows, and folds it alone. No other link may follow the head, as
    /// after `Done`. In this order of refusals: `Fork` where another held link has its prev, or else its id; `Full` where
    /// the store has `MAX_LINKS` links; `NoMemory`. A refused link is handed back, and the store is as it was.
    pub fn restart(&mut self, alloc: Global, link: Link) -> Result<(), TakeError>
        requires of_tables { IsOfTables (tables_of self.old) link }
        requires done { SettlesAs self.old Settled.Done }
        requires start { IsStart link.prev }
        requires above { start_in self.old < link.prev }
        requires fits { fits no_rows link.change ≡ true }
        ensures answer { RestartsAs self.old.links link result }
        ensures after { self.new ≡ after_restart self.old link result }

        // Links of one history are never refused as contradictions.
        ensures source { AreOfOneSource (tables_of self.old) (Holds self.old.links) (Among (link ∷ [])) → ¬ (IsFork result) }

        // The folded link is the longest chain, where none that was parked follows it.
        ensures longest { OnOk result (EndsAs self.new Settled.Done → IsChainOf self.new self.new.folded) }
    {
        match beside_link(&self.held, &link) {
            Beside::Same => unreachable!(),
            Beside::Other { by, prev, id } => {
                return Err(TakeError::Fork {
                    link,
                    by,
                    held_prev: prev,
                    held_id: id,
                });
            }
            Beside::Nothing => {}
        }
        if self.len() >= MAX_LINKS {
            return Err(TakeError::Full { link });
        }
        if let Err(NoMemory) = add_and_begin(alloc, &mut self.held, &mut self.folded, &link) {
            return Err(TakeError::NoMemory { link });
        }
        Ok(())
    }

    /// Drops the links that can be reached, prev to id, from a lower start than that of the chain, and answers how many
    /// they were. The chain has to be folded. Takes no memory.
    pub fn prune(&mut self) -> usize
        requires settled { IsChainOf self.old self.old.folded }
        ensures pruned { IsPruned self.old.links self.new.links (start_in self.old) }
        ensures kept { self.new ≡ with_links self.old self.new.links }
        ensures count { result + map.len self.new.links ≡ map.len self.old.links }
        ensures chain { IsChainOf self.new self.new.folded }
    {
        prune_below(&mut self.held, self.folded.start())
    }

    /// The union: adds all links of another store over the same schema, and folds nothing. In this order of
    /// refusals: `Fork` where a link of the other contradicts a held one; of those links that with the least id
    /// decides, and the held link is named, by prev before id; `Full` where the union has more than `MAX_LINKS`
    /// links; `NoMemory`, and that only where the union has more links than the store. After each refusal the store is
    /// as it was.
    pub fn merge(&mut self, other: &LinkStore) -> Result<(), MergeError>
        requires same_schema { tables_of self.old ≡ tables_of other.now }
        ensures answer { MergesAs self.old.links other.now.links result }
        ensures exact { TellsMerging (merge_answer self.old.links other.now.links) result }
        ensures after { self.new ≡ after_merge self.old other.now result }
        ensures store { IsStore self.new }

        // Links of one history are never refused as contradictions.
        ensures source { AreOfOneSource (tables_of self.old) (Holds self.old.links) (Holds other.now.links)
            → ¬ (IsMergeFork result) }
    {
        merge_into(self.alloc, &mut self.held, &other.held)
    }

    /// Folds the chain, anew where it begins at a greater start. `Done` where no held link follows it, and `Stuck` where
    /// one does that doesn't fit. After `NoMemory` the links are the same, and a longer beginning of the chain may be folded.
    pub fn settle(&mut self, alloc: Global) -> Result<Settled, NoMemory>
        ensures links { KeepsLinks self.old self.new }
        ensures settled { IfOk result (SettlesAs self.new) }
        ensures exact { IfOk result (λ answer. (answer ≡ settled_of self.old) × (self.new ≡ after_settle self.old)) }
        ensures store { IsStore self.new }

        // The chain that is folded then: no other is as long, and where all links come from one history it is the source's.
        ensures whole { IsWholeChain self.old (chain_of self.old) }
        ensures unfinished { OnErr result (¬ (IsChainOf self.new self.new.folded)) }
    {
        settle_links(alloc, &self.held, &mut self.folded)
    }

    /// Where the folded links begin, or 0.
    pub fn start(&self) -> TxnId
        ensures value { result ≡ start_in self.now }
    {
        self.folded.start()
    }

    /// The last folded id, or 0.
    pub fn head(&self) -> TxnId
        ensures value { result ≡ head_of self.now }
        ensures store { IsStore self.now }
    {
        self.folded.head()
    }

    /// How many links are held.
    pub fn len(&self) -> usize
        ensures value { result ≡ map.len self.now.links }
        ensures few { result ≤ max_links }
    {
        self.held.len()
    }

    /// Whether no link is held.
    pub fn is_empty(&self) -> bool
        ensures value { IsTrue result ↔ (map.len self.now.links ≡ 0) }
    {
        self.len() == 0
    }

    /// How many links are folded.
    pub fn chain_len(&self) -> usize
        ensures value { result ≡ length self.now.folded }
    {
        self.folded.chain_len()
    }

    /// How many held links aren't folded.
    pub fn parked(&self) -> usize
        ensures value { length self.now.folded + result ≡ map.len self.now.links }
    {
        self.len() - self.folded.chain_len()
    }

    /// Whether this very link is held.
    pub fn holds(&self, link: &Link) -> bool
        ensures value { IsTrue result ↔ Holds self.now.links link.now }
    {
        matches!(beside_link(&self.held, link), Beside::Same)
    }

    /// Whether a held link has this id. Takes no memory.
    pub fn has_id(&self, id: TxnId) -> bool
        ensures found { result ≡ true → (l : Link) × Holds self.now.links l × (l.id ≡ id) }
        ensures none { result ≡ false → (l : Link) → Holds self.now.links l → l.id ≢ id }
    {
        match self.held.with_id(id) {
            Some(_held) => true,
            None => false,
        }
    }

    /// How many links are folded up to this id: 0 for `start`, k for the id of the k-th folded link, else none.
    pub fn position_of(&self, id: TxnId) -> Option<usize>
        ensures found { IfSome result (λ k.
            (k ≤ length self.now.folded) × (head_after (start_in self.now) (take k self.now.folded) ≡ id)) }
        ensures only { (k : _) → k ≤ length self.now.folded
            → head_after (start_in self.now) (take k self.now.folded) ≡ id → result ≡ Some k }
    {
        self.folded.position_of(id)
    }

    /// The folded link with this number, counted from 1. `None` for 0 and past the last.
    pub fn link_at(&self, n: usize) -> Option<&Link>
        ensures value { option_copied result ≡ at_number self.now.folded n }
    {
        let step = self.folded.step(n)?;
        self.held.with_prev(step.prev)
    }

    /// The database after the folded links.
    pub fn database(&self) -> &Database
        ensures value { result.now ≡ record { schema = self.now.schema; rows = rows_of self.now } }
    {
        self.folded.database()
    }

    /// The database after the folded links, with one step for each of them.
    pub fn folded(&self) -> &Folded
        ensures value { result.now ≡ folded_of self.now.schema self.now.folded }
        ensures chain { IsFoldedChain result.now }
    {
        &self.folded
    }

    /// The schema of the store's databases.
    pub fn schema(&self) -> &Schema
        ensures value { result.now ≡ self.now.schema }
    {
        self.folded.database().schema()
    }
}
