//! Which desk it is.

use crate::step::SourceStep;
use ovs_sync::history::{HistoryName, Prefix};
use std::marker::{Brand, PhantomData};

/// Which source's desk it is: the history of its steps, and the desk with which it begins. A call of a function that is generic in
/// the name picks them.
pub trait SourceName {
    ghost use Rattle.logbook.specs.Pages.{Book};
    ghost use Rattle.ovs_source.specs.SourceDesk.{SourceDeskValue};

    ghost book: { Book };

    ghost start: { SourceDeskValue };
}

impl SourceName for Brand {
    ghost use Rattle.ovs_recorded_source.specs.Nobody.{no_history, no_desk};

    ghost book = { no_history };

    ghost start = { no_desk };
}

/// The history of the steps of a desk.
pub struct SourceHistory<N: SourceName> {
    of: PhantomData<N>,
}

impl<N: SourceName> HistoryName<SourceStep> for SourceHistory<N> {
    ghost use Rattle.ovs_recorded_source.specs.Steps.{AreSteps};

    ghost book = { N.book };

    ghost holds = { λ steps. AreSteps N.start steps };
}

/// A beginning of the list of the steps of a desk.
pub type SourceFront<N> = Prefix<SourceStep, SourceHistory<N>>;
