//! What holds of every step of a lock at a desk.

ghost use Rattle.std.specs.Prelude.{◌≡◌, ◌≢◌, ◌||◌, Bool, true, false, ℕ, List, [], Some, slice_get, drop};
ghost use Rattle.serde_json.specs.Data.{Data};
ghost use Rattle.std.specs.List.{list_any};
ghost use Rattle.ovs_locks.specs.Lock.{name_told, stands};
ghost use Rattle.ovs_locks.specs.declared.notice.LockNotice.{LockNotice};
ghost use Rattle.ovs_lock_desk.specs.LockState.{is_held, is_sent, gives};
ghost use Rattle.ovs_lock_desk.specs.PendingSteal.{is_due_late};
ghost use Rattle.ovs_lock_desk.specs.RelayLock.{RelayLockValue, IsStolenByOne, steal_open, own_steal_open, step, asked_here};
ghost use Rattle.ovs_lock_desk.specs.LockDesk.{RelayLocks, IsDeskTable, ChangesAt, answers_to, notices_to, notices_here};
ghost use Rattle.ovs_lock_desk.specs.declared.lock_state.LockEvent.{LockEvent};
ghost use Rattle.ovs_lock_desk.specs.declared.lock_state.LockReply.{LockReply};
ghost use Rattle.ovs_lock_desk.specs.declared.lock_state.LockVerb.{LockVerb};
ghost use Rattle.ovs_lock_desk.specs.declared.pending_steal.PendingSteal.{PendingSteal};

/// A lock is held only after it was held, or where the source gave it: in its answer to the request that was under way, or by
/// telling so while the desk waited. So a desk names no owner before.
pub fn a_lock_is_held_only_where_the_source_gave_it()
    ensures events { (event : LockEvent) (l : RelayLockValue) → is_held (step event l).state ≡ true → (is_held l.state || gives event l.state) ≡ true }
    ensures asking { (has_source : Bool) (session : ℕ) (verb : LockVerb) (id : Data) (l : RelayLockValue) → is_held l.state ≡ false → is_held (asked_here has_source session verb id l).state ≡ false }
{}

/// Once the source refused the request that was under way no steal waits for its answer: the session that waited is owed the
/// answer, and stands in the lists of the lock no longer.
pub fn a_refused_steal_is_answered_and_leaves()
    ensures none_waits { (n : ℕ) (l : RelayLockValue) → is_sent n l.state ≡ true → steal_open (step (LockEvent.Answered n LockReply.Refused) l) ≡ false }
    ensures answered { (n session : ℕ) (l : RelayLockValue) → IsStolenByOne l → is_sent n l.state ≡ true → own_steal_open session l ≡ true → list_any (is_due_late session) (step (LockEvent.Answered n LockReply.Refused) l).late ≡ true }
    ensures leaves { (n session : ℕ) (l : RelayLockValue) → IsStolenByOne l → is_sent n l.state ≡ true → own_steal_open session l ≡ true → stands session (step (LockEvent.Answered n LockReply.Refused) l).lock ≡ false }
{}

/// The first answer or notice that a session is owed is owed no more once it was told for its lock. The others still are, and
/// other sessions are owed what they were.
pub fn what_is_told_is_owed_no_more()
    ensures answer { (session : ℕ) (old new : RelayLocks) (first : List ℕ × PendingSteal) → IsDeskTable old → slice_get (answers_to session old) 0 ≡ Some first → ChangesAt first.0 (step (LockEvent.AnswerTold session)) old new → answers_to session new ≡ drop 1 (answers_to session old) }
    ensures notice { (session : ℕ) (old new : RelayLocks) (first : LockNotice) → IsDeskTable old → slice_get (notices_to session old) 0 ≡ Some first → ChangesAt (name_told first) (step (LockEvent.NoticeTold session)) old new → notices_to session new ≡ drop 1 (notices_to session old) }
    ensures other_answers { (session other : ℕ) (name : List ℕ) (old new : RelayLocks) → other ≢ session → ChangesAt name (step (LockEvent.AnswerTold session)) old new → answers_to other new ≡ answers_to other old }
    ensures other_notices { (session other : ℕ) (name : List ℕ) (old new : RelayLocks) → other ≢ session → ChangesAt name (step (LockEvent.NoticeTold session)) old new → notices_to other new ≡ notices_to other old }
{}

/// A session that unlocks a lock is told nothing more of it.
pub fn who_unlocks_is_told_no_more()
    ensures { (session : ℕ) (name : List ℕ) (l : RelayLockValue) → notices_here session name (step (LockEvent.Unlocked session) l) ≡ [] }
{}
