//! How a step comes into a desk's history.

ghost use Rattle.std.specs.Prelude.{◌≡◌, ◌++◌, ◌∷◌, [], true, false};
ghost use mathlib.Core.List.{IsPrefix};
ghost use Rattle.ovs_recorded_source.specs.Accounts.{link_taken};
ghost use Rattle.ovs_recorded_source.specs.Steps.{Does, AreSteps, EndsWith, IsStep};
ghost use Rattle.ovs_recorded_source.specs.Taking.{IsRecord, LeavesInOrder, links_taken};

use crate::holding_desk::HoldingDesk;
use crate::name::{SourceFront, SourceHistory, SourceName};
use crate::step::SourceStep;
use ovs_sync::history::{Book, EntryFrom};
use std::snapshot::Snapshot;
use std::sync::Wait;

// Adds a step behind all that were made, if nobody else added one and the caller knows no more of them. Since the book is with
// the desk that is always so.
fn try_record<N: SourceName, X, M: EntryFrom<X, SourceStep>>(
    book: &Book<SourceStep, SourceHistory<N>>,
    front: &mut SourceFront<N>,
    known: &mut SourceFront<N>,
    about: &X,
) -> bool
    requires holds { AreSteps N.start (front.old ++ M.entry about.now ∷ []) }
    ensures added { result ≡ true → front.new ≡ front.old ++ M.entry about.now ∷ [] }
    ensures told { result ≡ true → known.new ≡ front.new }
    ensures before { result ≡ true → IsPrefix known.old front.old }
    ensures unchanged { result ≡ false → (front.new ≡ front.old) × (known.new ≡ known.old) }
{
    let both = known.longer(front);
    if both.len() != front.len() || front.len() >= 1 << 62 {
        return false;
    }
    if front.add_as::<X, M>(book, about).is_err() {
        return false;
    }
    *known = front.again();
    true
}

// Adds a step behind all that were made. The book is with the desk, so that nobody else adds one: it returns at once.
fn record_entry<N: SourceName, X, M: EntryFrom<X, SourceStep>, R: Wait>(
    rt: &R,
    book: &Book<SourceStep, SourceHistory<N>>,
    front: &mut SourceFront<N>,
    known: &mut SourceFront<N>,
    about: &X,
)
    requires holds { AreSteps N.start (front.old ++ M.entry about.now ∷ []) }
    ensures added { front.new ≡ front.old ++ M.entry about.now ∷ [] }
    ensures told { known.new ≡ front.new }
    ensures before { IsPrefix known.old front.old }
{
    for _ in rt.forever() {
        if try_record::<N, X, M>(book, front, known, about) {
            break;
        }
    }
}

/// Adds the step that made the one desk of the other.
pub(crate) fn record_step<N: SourceName, X, M: EntryFrom<X, SourceStep>, R: Wait>(
    rt: &R,
    book: &Book<SourceStep, SourceHistory<N>>,
    front: &mut SourceFront<N>,
    known: &mut SourceFront<N>,
    about: &X,
    before: &Snapshot<HoldingDesk>,
    desk: &HoldingDesk,
)
    requires made { IsRecord N.start front.old before.now.value }
    requires does { Does (M.entry about.now) before.now.value desk.now }
    requires keeps { LeavesInOrder (M.entry about.now) before.now.value desk.now }
    ensures made { IsRecord N.start front.new desk.now }
    ensures taken { links_taken front.new ≡ links_taken front.old ++ link_taken (M.entry about.now) }
    ensures step { IsStep N.start (M.entry about.now) (record { steps = front.old; state = before.now.value }) (record { steps = front.new; state = desk.now }) }
    ensures told { known.new ≡ front.new }
    ensures ends { EndsWith (M.entry about.now) known.old known.new }
{
    record_entry::<N, X, M, R>(rt, book, front, known, about);
}

// Knows all steps that were made, if what is known isn't more. Since the book is with the desk that is always so.
fn try_know<N: SourceName>(front: &SourceFront<N>, known: &mut SourceFront<N>) -> bool
    ensures all { result ≡ true → known.new ≡ front.now }
    ensures before { IsPrefix known.old known.new }
    ensures unchanged { result ≡ false → known.new ≡ known.old }
{
    let both = known.longer(front);
    if both.len() != front.len() {
        return false;
    }
    *known = front.again();
    true
}

/// Knows all steps that were made. The book is with the desk: it returns at once.
pub(crate) fn know<N: SourceName, R: Wait>(
    rt: &R,
    front: &SourceFront<N>,
    known: &mut SourceFront<N>,
)
    ensures all { known.new ≡ front.now }
    ensures before { IsPrefix known.old known.new }
{
    for _ in rt.forever() {
        if try_know(front, known) {
            break;
        }
    }
}
