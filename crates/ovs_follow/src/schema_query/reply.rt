//! What a peer replies that is asked for a schema.

ghost use Rattle.std.specs.Prelude.{IfOk};
ghost use Rattle.serde_json.specs.View.{view};
ghost use Rattle.ovs_follow.specs.SchemaQuery.{Means};

use ovs_json::NoMemory;
use ovs_types::{Schema, SchemaError};
use serde_json::Value;
use std::alloc::Global;

/// What a peer replies that is asked for the schema of a database.
#[derive(Drop)]
pub enum SchemaReply {
    /// The schema.
    Schema(Schema),
    /// An error: it has no such database, or none yet.
    NoDatabase,
    /// What stands in the place of the schema is none, for this fault.
    Unreadable(SchemaError),
}

/// What these members of a reply mean.
pub(crate) fn reply_of(alloc: Global, said: &Value, error: &Value) -> Result<SchemaReply, NoMemory>
    ensures value { IfOk result (Means (view said.now) (view error.now)) }
{
    if !error.is_null() {
        return Ok(SchemaReply::NoDatabase);
    }
    match Schema::read(alloc, said) {
        Ok(schema) => Ok(SchemaReply::Schema(schema)),
        Err(SchemaError::NoMemory) => Err(NoMemory),
        Err(fault) => Ok(SchemaReply::Unreadable(fault)),
    }
}
