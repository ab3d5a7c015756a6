//! A session answers a message, and tells what is new.
ghost use Rattle.std.specs.Prelude.{◌≡◌, ◌<◌, ◌≤◌, ℕ, List, Some, None, Ok, Err, IfErr, OnOk, length};
ghost use Rattle.ovs_session.specs.Moving.{IsRefusal};
ghost use Rattle.ovs_session.specs.Serving.{Worked};

use crate::ended::Ended;
use crate::limits::TurnProgress;
use crate::service::Service;
use crate::session::Session;

/// Answers the message that is held, where one is. Where the service refuses it, it stays held and nothing has changed.
pub(crate) fn answer_held<S: Service>(
    session: &mut Session<S::Session>,
    service: &mut S,
) -> Result<(), Ended>
    requires taken { S.may_answer session.old.state }
    ensures worked { (limit : ℕ) → length session.old.unsent < limit → Worked S.answers S.tells limit session.old session.new }
    ensures none { OnOk result (session.new.held ≡ None) }
    ensures rest { session.new ≡ record session.old { held = session.new.held; state = session.new.state; unsent = session.new.unsent } }
    ensures refused { IfErr result (λ e. IsRefusal e) }
    ensures bad { result ≡ Err Ended.BadInput → (m : List ℕ) × (session.new.held ≡ Some m) × S.refuses session.new.state m }
    ensures gone { result ≡ Err Ended.Gone → S.is_gone service.new }
    ensures epoch { result ≡ Err Ended.Epoch → S.is_over service.new session.new.state }
{
    match session.held.take() {
        None => Ok(()),
        Some(message) => match service.answer(
            &mut session.state,
            message.as_slice(),
            &mut session.outbox,
        ) {
            Ok(()) => Ok(()),
            Err(refusal) => {
                session.held = Some(message);
                Err(refusal.into())
            }
        },
    }
}

/// Tells what is new. Where the service refuses, nothing has changed.
pub(crate) fn tell_new<S: Service>(
    session: &mut Session<S::Session>,
    service: &mut S,
) -> Result<TurnProgress, Ended>
    ensures worked { (limit : ℕ) → length session.old.unsent < limit → Worked S.answers S.tells limit session.old session.new }
    ensures rest { session.new ≡ record session.old { state = session.new.state; unsent = session.new.unsent } }
    ensures refused { IfErr result (λ e. IsRefusal e × (e ≡ Ended.BadInput → ⊥)) }
    ensures told { result ≡ Ok TurnProgress.Idle → S.is_told service.new session.new.state }
    ensures more { result ≡ Ok TurnProgress.Busy → S.may_tell service.new session.new.state }
    ensures grows { length session.old.unsent ≤ length session.new.unsent }
    ensures some { OnOk result ((said : List ℕ) × S.tells session.old.state said session.new.state) }
    ensures gone { result ≡ Err Ended.Gone → S.is_gone service.new }
    ensures epoch { result ≡ Err Ended.Epoch → S.is_over service.new session.new.state }
{
    Ok(service.tell(&mut session.state, &mut session.outbox)?)
}
