//! What is to be done for a reader.

use crate::saying::say_or_keep;
use ovs_authority::Ask;
use ovs_json::NoMemory;
use ovs_session::Outbox;
use ovs_wire::Message;
use std::alloc::Global;
use std::collections::VecDeque;
use std::marker::Model;

/// Messages that are to be said one after another. A contract sees them as a list.
#[derive(Drop)]
pub(crate) struct Several {
    messages: VecDeque<Message>,
}

impl Model for Several {
    ghost use Rattle.std.specs.Prelude.{List};
    ghost use Rattle.std.specs.Coded.{coded_list};
    ghost use Rattle.ovs_wire.specs.contracts.message.Message as message_row;
    ghost use Rattle.ovs_wire.specs.declared.message.Message.{Message};

    ghost Value = { List Message };

    ghost coded = { coded_list message_row.the_row.coded };

    ghost view = { λ s. s.messages.items };
}

impl Several {
    ghost use Rattle.std.specs.Prelude.{◌≡◌, ◌++◌, ◌↔◌, ℕ, List, [], IsTrue, OnOk, OnErr};
    ghost use Rattle.ovs_wire.specs.declared.message.Message.{Message};
    ghost use Rattle.ovs_service.specs.Texts.{AreTextsOf};

    /// These messages. No memory is taken.
    pub(crate) fn new(messages: Vec<Message>) -> Several
        ensures value { result ≡ messages.items }
    {
        Several {
            messages: VecDeque::from_vec(messages),
        }
    }

    /// Whether no message is left.
    pub(crate) fn is_empty(&self) -> bool
        ensures value { IsTrue result ↔ (self.now ≡ []) }
    {
        self.messages.is_empty()
    }

    /// Says the first, where one is left. After `NoMemory` nothing is said.
    pub(crate) fn say_first(&mut self, alloc: Global, out: &mut Outbox) -> Result<(), NoMemory>
        ensures said { OnOk result ((said : List Message) × (t : List ℕ) × (self.old ≡ said ++ self.new) × AreTextsOf said t × (out.new ≡ out.old ++ t)) }
        ensures unchanged { OnErr result ((self.new ≡ self.old) × (out.new ≡ out.old)) }
    {
        let Some(message) = self.messages.pop_front() else {
            return Ok(());
        };
        match say_or_keep(alloc, message, out) {
            Ok(()) => Ok(()),
            Err(message) => {
                self.messages.push_front_reserved(message);
                Err(NoMemory)
            }
        }
    }
}

/// What is to be done for a reader, when its turn comes.
#[derive(Drop)]
pub(crate) enum Pending {
    /// The message is to be said.
    Say(Message),
    /// The messages are to be said.
    Tell(Several),
    /// The authority is to be asked.
    Put(Ask),
}
