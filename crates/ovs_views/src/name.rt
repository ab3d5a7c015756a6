//! Which node it is.

use ovs_links::Step;
use std::marker::{Brand, PhantomData};

/// Which node it is: the history of its steps, and its schema. A call of a function that is generic in the name picks them.
pub trait NodeName {
    ghost use Rattle.logbook.specs.Pages.{Book};
    ghost use Rattle.ovs_types.specs.Schema.{SchemaValue};

    ghost book: { Book };

    ghost schema: { SchemaValue };
}

impl NodeName for Brand {
    ghost use Rattle.ovs_views.specs.Nobody.{no_history, no_schema};

    ghost book = { no_history };

    ghost schema = { no_schema };
}

/// The history of the steps of a node.
pub struct StepHistory<K: NodeName> {
    of: PhantomData<K>,
}

impl<K: NodeName> ovs_sync::history::HistoryName<Step> for StepHistory<K> {
    ghost use Rattle.ovs_views.specs.Published.{IsNodeChain};

    ghost book = { K.book };

    ghost holds = { λ steps. IsNodeChain K.schema steps };
}

/// A beginning of the chain of a node's steps.
pub type StepPrefix<K> = ovs_sync::history::Prefix<Step, StepHistory<K>>;

/// All that was published when it was made.
pub type Told<K> = StepPrefix<K>;
