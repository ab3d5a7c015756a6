//! New epochs of a source: its history begins anew with one link that inserts all rows.

ghost use Rattle.std.specs.Prelude.{◌≡◌, ◌<◌, suc, Some, None, Err, IfOk, IfSome};
ghost use Rattle.std.specs.FinMap as map;
ghost use Rattle.ovs_links.specs.Link.{IsStart};
ghost use Rattle.ovs_links.specs.Sets.{IsOfTables};
ghost use Rattle.ovs_links.specs.Store.{max_links, tables_of};
ghost use Rattle.ovs_source.specs.Commits.{IsTaken};
ghost use Rattle.ovs_source.specs.Trimming.{next_start, renewing, TrimsTo, BeginsEpoch};

use crate::source::Source;
use crate::trim_error::TrimError;
use ovs_links::{Link, MAX_LINKS};
use ovs_rows::Database;
use ovs_types::{NoMemory, TxnId};
use std::alloc::Global;

impl Source {
    // The start of the next epoch, if there is one.
    fn next_start(&self) -> Option<TxnId>
        ensures some { IfSome result (λ start. (start ≡ next_start self.now) × IsStart start) }
        ensures none { result ≡ None → ¬ (IsStart (next_start self.now)) }
    {
        let next = u128::from(self.store().start()).checked_add(1)?;
        let start = TxnId::from(next);
        if start.is_start() { Some(start) } else { None }
    }

    // The link from this start that inserts all rows.
    fn renewing_link(&self, alloc: Global, start: TxnId, id: TxnId) -> Result<Link, NoMemory>
        requires start { (start ≡ next_start self.now) × IsStart start }
        requires not_taken { ¬ (IsTaken self.now id) }
        ensures value { IfOk result (λ link. link ≡ renewing self.now id) }
        ensures tables { IfOk result (IsOfTables (tables_of self.now)) }
    {
        let database = self.store().database();
        let empty = Database::empty(alloc, database.schema())?;
        let change = Database::diff(alloc, &empty, database)?;
        match Link::new(start, id, change) {
            Ok(link) => Ok(link),
            Err(_) => unreachable!(),
        }
    }

    /// Begins a new epoch: the history goes on from the next start id, with one commit under this id that inserts all rows. So
    /// all rows have its id as version then. Answers its link. The links of older epochs stay held.
    ///
    /// # Errors
    /// In this order: `IdTaken` where the id is a start id or that of a held link; `EpochsSpent` where the start of the epoch is
    /// 2^64 - 1; `Full` where the store has no room for another link; `NoMemory`. The source is then as it was.
    pub fn trim(&mut self, alloc: Global, id: TxnId) -> Result<Link, TrimError>
        ensures outcome { TrimsTo self.old id result self.new }
        ensures history { IfOk result (λ link. BeginsEpoch self.old link self.new) }
        // So the link can be written with the source's schema.
        ensures tables { IfOk result (IsOfTables (tables_of self.new)) }
        // Want of memory isn't told in the place of another refusal.
        ensures memory { result ≡ Err TrimError.NoMemory → ¬ (IsTaken self.old id) × IsStart (next_start self.old) × (map.len self.old.links < max_links) }
    {
        if self.is_taken(id) {
            return Err(TrimError::IdTaken);
        }
        let Some(start) = self.next_start() else {
            return Err(TrimError::EpochsSpent);
        };
        if self.store().len() >= MAX_LINKS {
            return Err(TrimError::Full);
        }
        let link = self.renewing_link(alloc, start, id)?;
        // The copy is made first, so that nothing is refused once the epoch has begun.
        let made = link.copy()?;
        self.restart(alloc, link)?;
        Ok(made)
    }
}
