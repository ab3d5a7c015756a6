//! One direction of a connection between two nodes: messages go in whole and come out whole, and pass as bytes.
ghost use Rattle.std.specs.Prelude.{◌≡◌, ◌⊎◌, ◌∷◌, ◌++◌, [], ℕ, List, length, take, drop, min, None, OnOk, OnErr, IfOk, IfSome};
ghost use Rattle.std.specs.Option.{option_copied};
ghost use Rattle.ovs_wire.specs.Framing.{Feeds, Answers};
ghost use Rattle.ovs_wire.specs.declared.message.Message.{Message};
ghost use Rattle.ovs_world.specs.Carrying.{IsTextOf, Line, IsIdle, Carries, Sends, SendsAll, SendsAny, Passes, Receives, Moves};
ghost use Rattle.ovs_wire.specs.Limits.{most_bytes};
ghost use Rattle.ovs_wire.specs.Frames.{IsTooLarge};

use crate::error::WorldError;
use ovs_wire::{FrameError, Framer, Message, MessageError, NoMemory};
use std::alloc::Global;
use std::marker::Model;

/// One direction of a connection. What is sent is in flight until the receiving end is fed with it, cut anywhere.
#[derive(Debug, Drop)]
pub(crate) struct Pipe {
    framer: Framer,
    // what was sent since nothing was in flight
    sent: Vec<u8>,
    // how many bytes of it the framer was fed with
    fed: usize,
}

impl Model for Pipe {
    ghost use Rattle.std.specs.Prelude.{◌≡◌, ◌≤◌, ℕ, List, length, drop, refl};
    ghost use Rattle.std.specs.Coded.{code_by, coded×, coded_ℕ, coded_list};
    ghost use Rattle.ovs_wire.specs.Framing.{Framing};
    ghost use Rattle.ovs_wire.specs.contracts.framing.framer.Framer as framer_row;
    ghost use Rattle.ovs_world.specs.Carrying.{Line};

    ghost Value = { Line };

    ghost coded = { code_by (Framing × List ℕ) (coded× framer_row.the_row.coded (coded_list coded_ℕ))
        (λ l. (l.framing, l.flight)) (λ p. record { framing = p.0; flight = p.1 }) (λ _. refl) };

    ghost view = { λ c. record { framing = c.framer; flight = drop c.fed c.sent.items } };

    // where all was fed, nothing is kept
    ghost invariant = { λ c. (c.fed ≤ length c.sent.items) × (c.fed ≡ length c.sent.items → c.fed ≡ 0) };
}

impl Pipe {
    /// A channel on which nothing was sent yet.
    pub(crate) fn new(alloc: Global) -> Pipe
        ensures idle { IsIdle result }
        ensures carried { Carries result [] }
    {
        Pipe {
            framer: Framer::new(alloc),
            sent: Vec::new(alloc),
            fed: 0,
        }
    }

    /// How many bytes are in flight.
    pub(crate) fn in_flight(&self) -> usize
        ensures value { result ≡ length self.now.flight }
    {
        self.sent.len() - self.fed
    }

    /// Puts the message's text behind what is in flight, above the limits too: that is found where it arrives.
    /// `NoMemory` leaves the channel as it was.
    pub(crate) fn send(&mut self, alloc: Global, message: &Message) -> Result<(), NoMemory>
        ensures sent { OnOk result (Sends self.old message.now self.new) }
        ensures carried { OnOk result ((messages : List Message) → Carries self.old messages
            → Carries self.new (messages ++ message.now ∷ [])) }
        ensures memory { OnErr result (self.new ≡ self.old) }
    {
        let text = message.write(alloc)?;
        self.sent.extend_from_slice(&text)?;
        Ok(())
    }

    /// Sends messages, one after another. After `NoMemory` some of them may be in flight.
    pub(crate) fn send_all(&mut self, alloc: Global, messages: &[Message]) -> Result<(), NoMemory>
        ensures sent { OnOk result (SendsAll self.old messages.now self.new) }
    {
        for message in messages {
            self.send(alloc, message)?;
        }
        Ok(())
    }

    /// Sends a message, if there is one. `NoMemory` leaves the channel as it was.
    pub(crate) fn send_any(
        &mut self,
        alloc: Global,
        message: Option<&Message>,
    ) -> Result<(), NoMemory>
        ensures sent { OnOk result (SendsAny self.old (option_copied message.entry) self.new) }
    {
        match message {
            Some(message) => self.send(alloc, message),
            None => Ok(()),
        }
    }

    /// Sends a message and takes it out at once, where nothing else is on its way.
    ///
    /// # Errors
    /// - `TooLarge`: the message is above the limits.
    /// - `NoMemory`.
    ///
    /// The channel can't be used after either.
    pub(crate) fn pass(&mut self, alloc: Global, message: &Message) -> Result<Message, WorldError>
        requires idle { IsIdle self.old }
        ensures passed { IfOk result (λ m. (m ≡ message.now) × IsIdle self.new × Passes self.old message.now self.new) }
        ensures large { result ≡ Err WorldError.TooLarge → (text : List ℕ) × IsTextOf message.now text × IsTooLarge most_bytes text }
        ensures refused { (e : _) → result ≡ Err e → (e ≡ WorldError.TooLarge) ⊎ (e ≡ WorldError.NoMemory) }
    {
        self.send(alloc, message)?;
        self.feed(self.in_flight())?;
        match self.receive(alloc) {
            Ok(Some(message)) => Ok(message),
            Ok(None) => unreachable!(),
            Err(MessageError::NoMemory) => Err(WorldError::NoMemory),
            Err(MessageError::NotJson) => unreachable!(),
            Err(MessageError::BadShape) => unreachable!(),
        }
    }

    /// Feeds the receiving end with the next `n` of the bytes in flight, or with all if there are fewer, and says with
    /// how many.
    ///
    /// - Another error than `NoMemory`: the bytes hold a message above the limits. The messages before it wait.
    /// - `NoMemory`: nothing was fed.
    pub(crate) fn feed(&mut self, n: usize) -> Result<usize, FrameError>
        ensures moved { IfOk result (λ fed. Moves self.old fed self.new × (fed ≡ min n (length self.old.flight))) }
        ensures fault { (f : _) → result ≡ Err f → (f ≡ FrameError.NoMemory → ⊥)
            → Feeds self.old.framing (take n self.old.flight) self.new.framing }
        ensures answer { (result ≡ Err FrameError.NoMemory → ⊥) → Answers self.new.framing.ending result }
        ensures carried { (messages : List Message) → Carries self.old messages → Carries self.new messages }
        ensures memory { result ≡ Err FrameError.NoMemory → self.new ≡ self.old }
    {
        let end = self.fed + n.min(self.in_flight());
        self.framer.feed(&self.sent[self.fed..end])?;
        let count = end - self.fed;
        self.fed = end;
        if end == self.sent.len() {
            self.sent.clear();
            self.fed = 0;
        }
        Ok(count)
    }

    /// Takes out the first message that is whole at the receiving end, or none where none is.
    ///
    /// - `NotJson`, `BadShape`: it was no message, which nothing that was sent is.
    /// - `NoMemory`: the message is lost.
    pub(crate) fn receive(&mut self, alloc: Global) -> Result<Option<Message>, MessageError>
        ensures some { IfOk result (λ r. IfSome r (λ m. (messages : List Message) → Carries self.old messages
            → (more : List Message) × (messages ≡ m ∷ more) × Carries self.new more)) }
        ensures received { IfOk result (λ r. IfSome r (λ m. Receives self.old m self.new)) }
        ensures none { result ≡ Ok None → (self.new ≡ self.old) × (self.old.framing.waiting ≡ []) }
        ensures err { (e : _) → result ≡ Err e → (messages : List Message) → Carries self.old messages → e ≡ MessageError.NoMemory }
    {
        let Some(text) = self.framer.next() else {
            return Ok(None);
        };
        Ok(Some(Message::read(alloc, text)?))
    }
}
