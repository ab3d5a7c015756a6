//! What holds of every list of steps of a source's desk. It is the contract of a function with nothing to do.

ghost use Rattle.std.specs.Prelude.{List};
ghost use Rattle.ovs_source.specs.SourceDesk.{SourceDeskValue};
ghost use Rattle.ovs_recorded_source.specs.Accounts.{IsAccounted};
ghost use Rattle.ovs_recorded_source.specs.Steps.{DoesAll, SourceState, begun};
ghost use Rattle.ovs_recorded_source.specs.declared.step.SourceStep.{SourceStep};

/// Of every list of steps of a desk that began so, with what each call gave, and of what is left then. Each request was replied to
/// under its own id. Of each session, the replies to its transactions were given in the order of asking, each once, but for those
/// that wait still; none of before its end was given after that. And the links that transactions and epochs made were taken out in
/// the order of their making, each once, but for those that are held still.
pub fn every_run_of_a_source()
    ensures accounted { (start : SourceDeskValue) (made : List SourceStep) (left : SourceState) → DoesAll (begun start) made left → IsAccounted start made left }
{}
