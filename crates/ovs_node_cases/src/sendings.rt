//! What the ends of a node are to send, as it is read.

ghost use Rattle.std.specs.Prelude.{◌≡◌};

use crate::many::link_after;
use crate::node_case_error::NodeCaseError;
use ovs_case_lines::{commit_in, list_in, read_link};
use ovs_node::{NodeLink, NodeName};
use ovs_types::{Schema, TxnId};
use serde_json::Value;
use std::alloc::Global;

/// A link, and the head for which its end waits before it sends it.
#[derive(Drop)]
pub(crate) struct LinkSending<K: NodeName> {
    pub(crate) after: Option<TxnId>,
    pub(crate) link: NodeLink<K>,
}

// `[AFTER, PREV, ID, CHANGE]`, where AFTER is null for a link that waits for nothing.
fn read_sending<K: NodeName>(
    alloc: Global,
    schema: &Schema,
    json: &Value,
) -> Result<LinkSending<K>, NodeCaseError>
    requires schema { schema.now ≡ K.schema }
{
    let [after, prev, id, change] = list_in(json)? else {
        return Err(NodeCaseError::Malformed);
    };
    let after = if after.is_null() {
        None
    } else {
        Some(commit_in(after)?)
    };
    let (prev, id) = (commit_in(prev)?, commit_in(id)?);
    let link = read_link(alloc, schema, prev, id, change)?;
    Ok(LinkSending {
        after,
        link: NodeLink::new(link),
    })
}

// What one end is to send, in order.
fn read_sendings<K: NodeName>(
    alloc: Global,
    schema: &Schema,
    json: &Value,
) -> Result<Vec<LinkSending<K>>, NodeCaseError>
    requires schema { schema.now ≡ K.schema }
{
    let mut sendings = Vec::new(alloc);
    for sending in list_in(json)? {
        sendings.push(read_sending(alloc, schema, sending)?)?;
    }
    Ok(sendings)
}

// So many links in order, none of which waits.
fn many_sendings<K: NodeName>(
    alloc: Global,
    schema: &Schema,
    steps: u64,
) -> Result<Vec<LinkSending<K>>, NodeCaseError>
    requires schema { schema.now ≡ K.schema }
{
    let mut sendings = Vec::new(alloc);
    for number in 0..steps {
        let link = link_after(alloc, schema, number)?;
        sendings.push(LinkSending {
            after: None,
            link: NodeLink::new(link),
        })?;
    }
    Ok(sendings)
}

/// What the ends of a node are to send.
#[derive(Clone, Copy)]
pub(crate) enum Scene<'a> {
    /// A list for each end.
    Listed(&'a [Value]),
    /// So many links of one row from one end.
    Many(u64),
}

impl<'a> Scene<'a> {
    /// How many ends there are.
    pub(crate) fn ends(&self) -> usize {
        match self {
            Scene::Listed(ends) => ends.len(),
            Scene::Many(_) => 1,
        }
    }

    /// What each end is to send.
    pub(crate) fn sendings<K: NodeName>(
        &self,
        alloc: Global,
        schema: &Schema,
    ) -> Result<Vec<Vec<LinkSending<K>>>, NodeCaseError>
        requires schema { schema.now ≡ K.schema }
    {
        let mut sendings = Vec::new(alloc);
        match self {
            Scene::Listed(ends) => {
                for end in *ends {
                    sendings.push(read_sendings(alloc, schema, end)?)?;
                }
            }
            Scene::Many(steps) => sendings.push(many_sendings(alloc, schema, *steps)?)?,
        }
        Ok(sendings)
    }
}
