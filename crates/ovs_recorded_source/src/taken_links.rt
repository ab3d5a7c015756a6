//! The links that are taken out of a source's desk.

ghost use Rattle.std.specs.Prelude.{◌≡◌, ◌++◌, ◌∷◌, [], Some, IfSome, MatchOption};
ghost use Rattle.ovs_links.specs.Sets.{IsOfTables};
ghost use Rattle.ovs_links.specs.Store.{tables_of};
ghost use Rattle.ovs_recorded_source.specs.Steps.{IsStep};
ghost use Rattle.ovs_recorded_source.specs.Taking.{AreTaken};
ghost use Rattle.ovs_recorded_source.specs.declared.step.SourceStep.TheVariants as steps;

use crate::name::{SourceFront, SourceName};
use crate::recorded_source::RecordedSource;
use ovs_links::Link;
use std::marker::Model;
use std::sync::Wait;

/// The links that were taken out of a source's desk, as a caller knows them: all that were, in their order. They are the first of the
/// history that the source has in some run of such a desk.
#[derive(Drop)]
pub struct TakenLinks<N: SourceName> {
    // The steps up to the last one that took a link out.
    known: SourceFront<N>,
    number: u64,
}

impl<N: SourceName> Model for TakenLinks<N> {
    ghost use Rattle.std.specs.Prelude.{◌≡◌, List, length};
    ghost use Rattle.std.specs.Coded.{coded_list};
    ghost use Rattle.ovs_links.specs.Store.{tables_of};
    ghost use Rattle.ovs_links.specs.contracts.link.Link as link_row;
    ghost use Rattle.ovs_links.specs.declared.link.Link.{Link};
    ghost use Rattle.ovs_recorded_source.specs.Taking.{AreTaken, links_taken};

    ghost Value = { List Link };

    ghost coded = { coded_list link_row.the_row.coded };

    ghost view = { λ t. links_taken t.known };

    ghost invariant = { λ t. (t.number ≡ length (links_taken t.known)) × AreTaken N.start (tables_of N.start.source) (links_taken t.known) };
}

impl<N: SourceName> TakenLinks<N> {
    /// None, of a desk on which no step was made.
    pub fn new(known: SourceFront<N>) -> TakenLinks<N>
        requires none { known ≡ [] }
        ensures none { result ≡ [] }
    {
        TakenLinks { known, number: 0 }
    }

    /// Takes the first link out of those that were made and weren't taken out, if there is one. Where another caller took one out none
    /// is taken any more.
    pub fn take<R: Wait>(&mut self, rt: &R, desk: &mut RecordedSource<N>) -> Option<Link>
        ensures taken { MatchOption result (self.new ≡ self.old) (λ l. self.new ≡ self.old ++ l ∷ []) }
        ensures step { IfSome result (λ l. IsStep N.start (steps.TookLink (Some l)) desk.old desk.new) }
        ensures tables { IfSome result (IsOfTables (tables_of N.start.source)) }
        ensures all { AreTaken N.start (tables_of N.start.source) self.new }
    {
        let number = self.number.checked_add(1)?;
        if desk.taken() != self.number {
            return None;
        }
        let mut known = self.known.again();
        let link = desk.next_link(rt, &mut known)?;
        self.known = known;
        self.number = number;
        Some(link)
    }
}
