//! What holds of every list of steps of a relay's desk. It is the contract of a function with nothing to do.

ghost use Rattle.std.specs.Prelude.{ℕ, List};
ghost use Rattle.ovs_recorded_desk.specs.LedgerCalls.{IsAccounted};
ghost use Rattle.ovs_recorded_desk.specs.Steps.{AreSteps};
ghost use Rattle.ovs_recorded_desk.specs.declared.step.DeskStep.{DeskStep};

/// Of every list of steps of a desk that was new, with what each call gave: what it did with the requests that were passed on is
/// a list of calls on them. So each request that was passed on went up once at most, in the order of asking, as it was asked.
/// Each answer went to the session that asked, under its own id, once at most. It is the first reply to the request's number, or
/// "source lost" where the source was lost before that. And a session that ended is given nothing. Whatever else went up or was
/// given is of the locks.
pub fn every_run_of_a_desk()
    ensures accounted { (database : List ℕ) (made : List DeskStep) → AreSteps database made → IsAccounted database made }
{}
