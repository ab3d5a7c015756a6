//! That a source's desk with its replies that wait may go to other threads. It follows from its parts, since the search that finds
//! this of small types gives up at large ones.

ghost use denote.Param.Send.{IsSend};
ghost use Rattle.ovs_links.specs.contracts.link.Link as link;
ghost use Rattle.ovs_links.specs.contracts.store.LinkStore as link_store;
ghost use Rattle.ovs_locks.specs.contracts.lock_table.LockTable as lock_table;
ghost use Rattle.ovs_source.specs.contracts.fresh_rows.FreshRows as fresh_rows;
ghost use Rattle.ovs_source.specs.contracts.source.Source as source;
ghost use Rattle.ovs_source.specs.contracts.source_desk.SourceDesk as source_desk;
ghost use Rattle.ovs_recorded_source.specs.contracts.holding_desk.HoldingDesk as holding_desk;
ghost use Rattle.ovs_recorded_source.specs.contracts.waiting.WaitingReplies as waiting_replies;

use crate::waiting::{WaitingReplies, WaitingReply};
use ovs_links::{Folded, Link, LinkStore, Step};
use ovs_locks::LockTable;
use ovs_rows::Database;
use ovs_source::{FreshRows, Source};
use ovs_types::Schema;
use ovs_wire::Message;

// What is known of the type is a fact from here on.
fn sends<T: Send>()
    ensures { IsSend T.row }
{}

fn link_store_sends()
    ensures { IsSend link_store.the_row }
{
    sends::<Schema>();
    sends::<Database>();
    sends::<Step>();
    sends::<Folded>();
    sends::<Link>();
    sends::<LinkStore>();
}

fn source_sends()
    ensures { IsSend source.the_row }
{
    link_store_sends();
    sends::<Source>();
}

fn lock_table_sends()
    ensures { IsSend lock_table.the_row }
{
    sends::<LockTable>();
}

fn fresh_rows_sends()
    ensures { IsSend fresh_rows.the_row }
{
    sends::<FreshRows>();
}

fn link_sends()
    ensures { IsSend link.the_row }
{
    sends::<Link>();
}

fn source_desk_sends()
    ensures { IsSend source_desk.the_row }
{
    source_sends();
    lock_table_sends();
    fresh_rows_sends();
    link_sends();
}

fn waiting_replies_send()
    ensures { IsSend waiting_replies.the_row }
{
    sends::<Message>();
    sends::<WaitingReply>();
    sends::<WaitingReplies>();
}

/// A source's desk with its replies that wait may go to other threads, and with it one with its history (`recorded_source_sends` of
/// the proofs): who shares one behind a lock calls this, and has it as a fact.
pub fn holding_desk_sends()
    ensures { IsSend holding_desk.the_row }
{
    source_desk_sends();
    waiting_replies_send();
}
