//! What holds of every list of calls on the requests that are passed on. Each is the contract of a function with nothing to do.

ghost use Rattle.std.specs.Prelude.{◌++◌, ◌∷◌, ℕ, List, []};
ghost use Rattle.std.specs.List.{AllByRecursion};
ghost use Rattle.ovs_desk.specs.Ledger.{Ledger};
ghost use Rattle.ovs_desk.specs.Calls.{Call};
ghost use Rattle.ovs_desk.specs.Calls as calls;
ghost use Rattle.ovs_desk.specs.Runs.{Runs, no_request, sent, taken_up, collected, numbers, RiseFrom, IsPartOf, EachOnce, AllGiveOwn, StaysAway, GivesNothing};
ghost use Rattle.ovs_desk.specs.ShownRuns.{ShownCall, RunsShown, calls_of, GivesShown};

/// Of every list of calls that begins with no request: the numbers that are given out rise, so that no two are the same. What
/// goes up are requests as they were sent, in that order, so that none goes up twice. No request is answered twice, and what a
/// session is given is the reply to a request that it sent before, under its own id. After a session ends, nothing is given to
/// it as long as it sends nothing.
pub fn every_run_of_a_ledger()
    ensures numbers { (list : List Call) (end : Ledger) → Runs no_request list end → RiseFrom 0 (numbers (sent list)) }
    ensures up { (list : List Call) (end : Ledger) → Runs no_request list end → IsPartOf (taken_up list) (sent list) }
    ensures once { (list : List Call) (end : Ledger) → Runs no_request list end → EachOnce (numbers (collected list)) }
    ensures own { (list : List Call) (end : Ledger) → Runs no_request list end → AllGiveOwn [] list }
    ensures ended { (session : ℕ) (before after : List Call) (end : Ledger) → Runs no_request (before ++ calls.Ends session ∷ after) end → AllByRecursion (StaysAway session) after → AllByRecursion (GivesNothing session) after }
{}

/// Where answers are given to a session only once it is shown where they stand: each that is given was, and the calls are a list
/// of calls as `every_run_of_a_ledger` speaks of, without those by which a session was given nothing. So what sessions are given
/// is the same, in the same order; it may come later.
pub fn answers_are_given_where_they_are_shown()
    ensures shown { (list : List ShownCall) (end : Ledger) → RunsShown no_request list end → AllByRecursion GivesShown list }
    ensures run { (list : List ShownCall) (end : Ledger) → RunsShown no_request list end → Runs no_request (calls_of list) end }
{}
