//! The request for a schema.

ghost use Rattle.std.specs.Prelude.{◌≡◌, IfOk};
ghost use Rattle.ovs_follow.specs.SchemaQuery.{request};

use ovs_json::{NoMemory, text_json};
use ovs_wire::{Id, Message, Method, Params};
use std::alloc::Global;

// The id of the request, by which its reply is known.
pub(crate) const REQUEST_ID: &str = "schema";

/// The request for the schema of the database of this name.
pub(crate) fn request(alloc: Global, database: &str) -> Result<Message, NoMemory>
    ensures value { IfOk result (λ m. m ≡ request database.now) }
{
    let mut params = Vec::with_capacity(alloc, 1)?;
    params.push_reserved(text_json(alloc, database)?);
    Ok(Message::Request {
        method: Method::new(String::from_str(alloc, "get_schema")?),
        params: Params::new(params),
        id: Id::from_text(alloc, REQUEST_ID)?,
    })
}
