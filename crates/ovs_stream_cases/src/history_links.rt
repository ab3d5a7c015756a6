//! The links of a history that a type names.

ghost use Rattle.std.specs.Prelude.{◌≡◌};
ghost use Rattle.ovs_stream_cases.specs.Made.{IsHistoryOf};

use ovs_links::Link;
use ovs_node::NodeName;
use std::marker::{Brand, Model, PhantomData};

/// Which history it is, by its commits. A call of a function that is generic in the name picks them.
pub(crate) trait HistoryName {
    ghost use Rattle.std.specs.Prelude.{List};
    ghost use Rattle.ovs_links.specs.History.{Commit};

    ghost commits: { List Commit };
}

impl HistoryName for Brand {
    ghost use Rattle.std.specs.Prelude.{[]};

    ghost commits = { [] };
}

/// All links of the history, in order, in a database of the node's schema.
#[derive(Drop)]
pub(crate) struct HistoryLinks<K: NodeName, J: HistoryName> {
    links: Vec<Link>,
    node: PhantomData<K>,
    of: PhantomData<J>,
}

impl<K: NodeName, J: HistoryName> Model for HistoryLinks<K, J> {
    ghost use Rattle.std.specs.Prelude.{List};
    ghost use Rattle.std.specs.Coded.{coded_list};
    ghost use Rattle.ovs_links.specs.contracts.link.Link as link_row;
    ghost use Rattle.ovs_links.specs.declared.link.Link.{Link};
    ghost use Rattle.ovs_stream_cases.specs.Made.{IsHistoryOf};

    ghost Value = { List Link };

    ghost coded = { coded_list link_row.the_row.coded };

    ghost view = { λ l. l.links.items };

    ghost invariant = { λ l. IsHistoryOf K.schema.description.tables J.commits l.links.items };
}

impl<K: NodeName, J: HistoryName> HistoryLinks<K, J> {
    /// These links.
    pub(crate) fn new(links: Vec<Link>) -> HistoryLinks<K, J>
        requires history { IsHistoryOf K.schema.description.tables J.commits links.items }
        ensures value { result ≡ links.items }
    {
        HistoryLinks {
            links,
            node: PhantomData,
            of: PhantomData,
        }
    }

    /// The links.
    pub(crate) fn as_slice(&self) -> &[Link]
        ensures value { result.now ≡ self.now }
        ensures history { IsHistoryOf K.schema.description.tables J.commits result.now }
    {
        self.links.as_slice()
    }
}
