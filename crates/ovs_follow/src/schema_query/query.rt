//! A session in which a schema is asked for, from its beginning to its end.

ghost use Rattle.std.specs.Prelude.{◌≡◌};
ghost use Rattle.ovs_follow.specs.SchemaQuery.{HasAsked};

use crate::schema_query::asker::{SchemaAsker, SchemaQuery};
use crate::schema_query::reply::SchemaReply;
use ovs_json::Text;
use ovs_session::{Ended, Limits, Session, serve};
use ovs_wire::Counted;
use std::alloc::Global;
use std::io::{Read, Write};

/// How the session that asks for a schema ended, and what it learned.
#[derive(Drop)]
pub struct Queried {
    /// What the peer replied, if it did.
    pub reply: Option<SchemaReply>,
    /// Why the session ended: `Gone` once the peer has replied.
    pub ended: Ended,
}

/// Asks a peer once for the schema of the database of this name, and hears what it says until it has replied, by so many turns at most.
///
/// The peer's bytes are read as a stream of messages of `most_bytes` at most. Of those that are replies to the request the last one counts.
pub fn query_schema<R: Read, W: Write>(
    alloc: Global,
    database: Text,
    reader: &mut Counted<R>,
    writer: &mut Counted<W>,
    most_bytes: usize,
    limits: Limits,
    most_turns: u32,
) -> Queried
    ensures asked { HasAsked database most_bytes limits.most_unsent (R.remaining reader.old.device) (R.remaining reader.new.device)
        (W.contents writer.old.device) (W.contents writer.new.device) result.reply }
{
    let mut asker = SchemaAsker {
        alloc,
        is_replied: false,
    };
    let mut session = Session::with_limit(
        alloc,
        most_bytes,
        SchemaQuery {
            database,
            has_asked: false,
            reply: None,
        },
    );
    let ended = serve(&mut session, &mut asker, reader, writer, limits, most_turns);
    let SchemaQuery { reply, .. } = session.into_state();
    Queried { reply, ended }
}
