//! Asks a peer for the schema of a database, over a session that does nothing else (RFC 7047 section 4.1.2).

mod asker;
mod hearing;
mod query;
mod reply;
mod request;

pub use query::{Queried, query_schema};
pub use reply::SchemaReply;
