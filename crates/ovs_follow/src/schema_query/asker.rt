//! What serves a session in which a schema is asked for.

ghost use Rattle.std.specs.Prelude.{◌≡◌, true, None};
ghost use Rattle.ovs_follow.specs.SchemaQuery.{Hears, Asks};
ghost use Rattle.ovs_session.specs.Messages.{SaysNothing};

use crate::schema_query::hearing::hear;
use crate::schema_query::reply::SchemaReply;
use crate::schema_query::request::request;
use ovs_json::Text;
use ovs_session::{Outbox, Service, ServiceError, TurnProgress};
use std::alloc::Global;

/// What is known of a session in which a schema is asked for.
#[derive(Drop)]
pub struct SchemaQuery {
    pub(crate) database: Text,
    pub(crate) has_asked: bool,
    pub(crate) reply: Option<SchemaReply>,
}

/// Asks for a schema, and ends the session once the reply has come.
#[derive(Clone, Copy, Debug)]
pub struct SchemaAsker {
    pub(crate) alloc: Global,
    // The session was replied, so that there is nothing more to ask.
    pub(crate) is_replied: bool,
}

impl Service for SchemaAsker {
    type Session = SchemaQuery;

    ghost answers = { λ old text said new. Hears old text said new };

    ghost tells = { λ old said new. Asks old said new };

    ghost refuses = { λ _ text. SaysNothing text };

    ghost may_answer = { λ _. Unit {0} };

    ghost is_answered = { λ _. Unit {0} };

    ghost is_told = { λ _ query. query.has_asked ≡ true };

    ghost may_tell = { λ _ _. ⊥ };

    ghost is_gone = { λ asker. asker.is_replied ≡ true };

    ghost is_over = { λ _ _. ⊥ };

    fn takes(&self, _query: &SchemaQuery) -> bool {
        true
    }

    fn awaits(&self, _query: &SchemaQuery) -> bool {
        false
    }

    fn answer(
        &mut self,
        query: &mut SchemaQuery,
        message: &[u8],
        _out: &mut Outbox,
    ) -> Result<(), ServiceError> {
        match hear(self.alloc, message) {
            Ok(Some(reply)) => {
                query.reply = Some(reply);
                Ok(())
            }
            Ok(None) => Ok(()),
            Err(refusal) => Err(refusal),
        }
    }

    fn tell(
        &mut self,
        query: &mut SchemaQuery,
        out: &mut Outbox,
    ) -> Result<TurnProgress, ServiceError> {
        self.is_replied = query.reply.is_some();
        if self.is_replied {
            return Err(ServiceError::Gone);
        }
        if !query.has_asked {
            let text = request(self.alloc, query.database.as_str())?.write(self.alloc)?;
            out.push(&text)?;
            query.has_asked = true;
        }
        Ok(TurnProgress::Idle)
    }
}
