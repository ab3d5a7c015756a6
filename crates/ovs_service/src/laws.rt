//! What users are promised, of any session that this service serves.
ghost use Rattle.std.specs.Prelude.{◌≡◌, ◌++◌, ◌∷◌, ℕ, Bool, List, [], Option};
ghost use Rattle.ovs_wire.specs.declared.message.Message.{Message};
ghost use Rattle.ovs_views.specs.Published.{ViewSessionValue};
ghost use Rattle.ovs_service.specs.Calls as calls;
ghost use Rattle.ovs_service.specs.Calls.{Call, Give, IsCollectedBehind};
ghost use Rattle.ovs_service.specs.Deeds.{Task};
ghost use Rattle.ovs_links.specs.declared.step.Step.{Step};
ghost use Rattle.ovs_session.specs.Moving.{Moved, IsBad};
ghost use Rattle.ovs_session.specs.Serving.{SessionValue, IsDone, fresh};
ghost use Rattle.ovs_session.specs.declared.ended.Ended.{Ended};
ghost use Rattle.ovs_service.specs.Client.{ClientValue, AnswersTo, TellsNew, new_client, new_view};
ghost use Rattle.ovs_session.specs.Messages.{SaysNothing};
ghost use Rattle.ovs_service.specs.Kept.{Kept};

use crate::service_authority::ServiceAuthority;
use ovs_views::NodeName;

/// What a session of a reader did since it was new, in however many turns, and whoever made them (a `Slot` of `ovs_worker` keeps
/// it as a fact of its own), is what users are promised: it wrote a beginning of the text of what its calls gave, and all calls
/// that were made for it at the desk are those that these called for. It may be told to be closed where it is done and nothing is
/// due, and bad input where its input is bad.
pub fn reader_laws<K: NodeName, D: ServiceAuthority<K>>()
    ensures kept { (limit session_id : ℕ) (last : List Step) (i j o p : Option (List ℕ)) (now : SessionValue ClientValue) (ended : Ended)
        → Moved (AnswersTo K.schema D.replies D.owes) (TellsNew K.schema D.replies D.owes) limit i j o p (fresh (new_client session_id last)) now
        → (ended ≡ Ended.Closed → IsDone now × (now.state.due ≡ []))
        → (ended ≡ Ended.BadInput → IsBad {C = ClientValue} (λ client text. SaysNothing text) now)
        → Kept K.schema (D.replies session_id) (λ held. D.owes held session_id) (new_view last) i j o p now.counts ended now.state }
{}

/// Whatever calls are made for a session: what is collected at one of them stands, in what the calls give to do, behind all that
/// the session's monitors tell of the steps that it was shown then, and each message of it is owed to who was shown these. A desk
/// that holds answers back owes them only to who was shown what they stand for; so a reply to a transaction comes behind the
/// notifications of its commit (ovsdb-server(7), section 4.1.6).
pub fn answers_come_behind_what_they_stand_for<K: NodeName, D: ServiceAuthority<K>>()
    ensures behind { (session_id : ℕ) (before after : List Call) (held : Bool) (taken : List (Option Message)) (start now : ViewSessionValue) (todo : List Task)
        → Give K.schema (λ held. D.owes held session_id) (before ++ calls.Collect held taken ∷ after) start todo now
        → IsCollectedBehind K.schema (λ held. D.owes held session_id) before held taken start todo }
{}
