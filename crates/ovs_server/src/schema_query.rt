//! The schema of a relay that has it from its first upstream.

use crate::error::ServerError;
use crate::runtime::NodeRuntime;
use crate::sockets::LIMITS;
use log::{Log, error};
use ovs_address::Address;
use ovs_follow::schema_query::{SchemaReply, query_schema};
use ovs_json::Text;
use ovs_node::NodeError;
use ovs_sockets::{ShutdownFlag, Uplink};
use ovs_types::Schema;
use ovs_wire::Counted;
use std::alloc::Global;
use std::sync::Wait;

// A session in which a schema is asked for makes so many turns at most.
const MOST_TURNS: u32 = 1_000_000;

// Tells why an upstream's reply is no schema.
fn tell<R: Log>(rt: &R, upstream: Option<Address>, database: &str, reply: &SchemaReply) {
    let Some(upstream) = upstream else {
        return;
    };
    match reply {
        SchemaReply::Schema(_) => {}
        SchemaReply::NoDatabase => error!(rt; "upstream {upstream} has no database {database:?}"),
        SchemaReply::Unreadable(fault) => {
            error!(rt; "upstream {upstream} has a schema that is refused: {fault}");
        }
    }
}

/// The schema of the database of this name at the first of these upstreams, whose addresses are asked in turn, with growing pauses, until
/// one tells it. So many connections are tried at most, or any number. A message of the upstream may have `most_bytes`. The first reply that
/// is none is told on the log.
///
/// # Errors
/// `Node` where there is no upstream, or no address of it; `NoSchema` where no connection is left to try; `System`; `NoMemory`.
pub fn schema_of_upstream<R: NodeRuntime + Log>(
    rt: R,
    alloc: Global,
    upstreams: &[Vec<Address>],
    database: &str,
    tries: Option<u32>,
    most_bytes: usize,
) -> Result<Schema, ServerError> {
    let Some(addresses) = upstreams.first() else {
        return Err(ServerError::Node(NodeError::BadCount));
    };
    let shutdown_flag = ShutdownFlag::new(alloc)?;
    let addresses = addresses.as_slice();
    let (mut uplink, _wakers) = Uplink::new(
        rt,
        alloc,
        addresses,
        tries,
        most_bytes,
        &shutdown_flag,
    )?;
    let mut has_told = false;
    for _ in rt.forever() {
        if !uplink.next() {
            break;
        }
        let Some((reader, writer)) = uplink.open() else {
            continue;
        };
        let name = Text::new(alloc, database)?;
        let (mut reader, mut writer) = (Counted::new(reader), Counted::new(writer));
        let queried = query_schema(
            alloc,
            name,
            &mut reader,
            &mut writer,
            most_bytes,
            LIMITS,
            MOST_TURNS,
        );
        match queried.reply {
            Some(SchemaReply::Schema(schema)) => return Ok(schema),
            Some(reply) => {
                if !has_told {
                    tell(&rt, uplink.address(), database, &reply);
                }
                has_told = true;
            }
            None => uplink.lost(queried.ended),
        }
    }
    match uplink.address() {
        Some(upstream) => Err(ServerError::NoSchema(upstream)),
        None => Err(ServerError::Node(NodeError::BadCount)),
    }
}
