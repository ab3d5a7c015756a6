//! Laws on what a session reads, answers and writes.
ghost use Rattle.std.specs.Prelude.{ℕ, List, Option};
ghost use Rattle.ovs_session.specs.Moving.{Moved};
ghost use Rattle.ovs_session.specs.Serving.{SessionValue, Served, IsDone, fresh_within};
ghost use Rattle.ovs_session.specs.Whole.{Answers, AnswersAll};

use crate::service::Service;

/// Turns compose: what a session did in some turns, and then in some more, is what it did in all of them. From its
/// beginning on it answers the messages of its stream in order, each of at most so many bytes, and writes what it says; all of
/// it where it is done.
pub fn session_laws<S: Service>()
    ensures turns { (limit : ℕ) (i j k o p q : Option (List ℕ)) (a b c : SessionValue S.Session)
        → Moved S.answers S.tells limit i j o p a b → Moved S.answers S.tells limit j k p q b c
        → Moved S.answers S.tells limit i k o q a c }
    ensures stream { (most : ℕ) (state : S.Session) (bytes_read bytes_written : List ℕ) (now : SessionValue S.Session)
        → Served S.answers S.tells (fresh_within most state) bytes_read bytes_written now → Answers S.answers S.tells most state bytes_read bytes_written now }
    ensures all { (most : ℕ) (state : S.Session) (bytes_read bytes_written : List ℕ) (now : SessionValue S.Session)
        → Served S.answers S.tells (fresh_within most state) bytes_read bytes_written now → IsDone now
        → AnswersAll S.answers S.tells most state bytes_read bytes_written now }
{}
