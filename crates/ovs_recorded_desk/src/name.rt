//! Which desk it is.

use crate::step::DeskStep;
use ovs_sync::history::{HistoryName, Prefix};
use std::marker::{Brand, PhantomData};

/// Which relay's desk it is: the history of its steps, and the name of its database. A call of a function that is generic in the
/// name picks them.
pub trait DeskName {
    ghost use Rattle.std.specs.Prelude.{ℕ, List};
    ghost use Rattle.logbook.specs.Pages.{Book};

    ghost book: { Book };

    ghost database: { List ℕ };
}

impl DeskName for Brand {
    ghost use Rattle.std.specs.Prelude.{[]};
    ghost use Rattle.ovs_recorded_desk.specs.Steps.{no_history};

    ghost book = { no_history };

    ghost database = { [] };
}

/// The history of the steps of a desk.
pub struct DeskHistory<N: DeskName> {
    of: PhantomData<N>,
}

impl<N: DeskName> HistoryName<DeskStep> for DeskHistory<N> {
    ghost use Rattle.ovs_recorded_desk.specs.Steps.{AreSteps};

    ghost book = { N.book };

    ghost holds = { λ steps. AreSteps N.database steps };
}

/// A beginning of the list of the steps of a desk.
pub type DeskFront<N> = Prefix<DeskStep, DeskHistory<N>>;
