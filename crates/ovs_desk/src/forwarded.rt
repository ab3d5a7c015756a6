//! One request on its way.

ghost use Rattle.std.specs.Prelude.{◌≡◌, true, false, IfOk, OnOk, OnErr};
ghost use Rattle.ovs_desk.specs.Ledger.{is_waiting, is_open, is_lost, passes, message_of, reply_of, standing_of, source_lost, taken, answered, lost, settled};

use crate::standing::StandingAnswer;
use ovs_authority::{Request, refused};
use ovs_data::TxnId;
use ovs_json::{NoMemory, SessionId};
use ovs_wire::{Id, Message};
use std::alloc::Global;
use std::mem;

/// How far a request has come.
#[derive(Drop)]
pub enum ForwardedState {
    /// It waits to go up.
    Waiting(Request),
    /// It went up, and waits for its answer.
    Taken,
    /// It was answered.
    Answered(StandingAnswer),
    /// The source was lost before it was answered.
    Lost,
}

/// A request that was sent and isn't collected yet.
#[derive(Drop)]
pub struct Forwarded {
    /// The session that asked.
    pub asker: SessionId,
    /// The session's own id for the request.
    pub id: Id,
    /// The number that is its id upward.
    pub number: u64,
    /// How far it has come.
    pub state: ForwardedState,
}

/// What a request is looked for by; contracts name it.
#[derive(Clone, Copy, Drop)]
pub enum RequestFilter {
    /// It waits to go up.
    ToGo,
    /// It has this number, and waits for its answer.
    Open(u64),
    /// This session asked, and it was answered or lost.
    Due(SessionId),
    /// This session asked.
    Of(SessionId),
}

// What is answered to those that wait when the source is lost.
fn source_lost(alloc: Global) -> Result<StandingAnswer, NoMemory>
    ensures value { IfOk result (λ a. a ≡ source_lost) }
{
    Ok(StandingAnswer {
        answer: refused(alloc, "source lost")?,
        standing: TxnId::zero(),
    })
}

impl ForwardedState {
    fn is_waiting(&self) -> bool
        ensures value { result ≡ is_waiting self.now }
    {
        matches!(self, ForwardedState::Waiting(_))
    }

    fn is_open(&self) -> bool
        ensures value { result ≡ is_open self.now }
    {
        matches!(self, ForwardedState::Waiting(_) | ForwardedState::Taken)
    }
}

impl Forwarded {
    /// Whether it is what is looked for.
    pub(crate) fn passes(&self, sought: RequestFilter) -> bool
        ensures value { result ≡ passes sought self.now }
    {
        match sought {
            RequestFilter::ToGo => self.state.is_waiting(),
            RequestFilter::Open(number) => self.number == number && self.state.is_open(),
            RequestFilter::Due(session) => self.asker == session && !self.state.is_open(),
            RequestFilter::Of(session) => self.asker == session,
        }
    }

    /// Takes it up, if it waits to go: the message that goes up, under its number.
    pub(crate) fn take_up(&mut self) -> Option<Message>
        requires waits { passes RequestFilter.ToGo self.old ≡ true }
        ensures message { result ≡ message_of self.old }
        ensures after { self.new ≡ taken self.old }
    {
        let number = self.number;
        match mem::replace(&mut self.state, ForwardedState::Taken) {
            ForwardedState::Waiting(request) => Some(request.into_message(Id::from_number(number))),
            _ => unreachable!(),
        }
    }

    /// Answers it.
    pub(crate) fn answer(&mut self, answer: StandingAnswer)
        ensures after { self.new ≡ answered answer self.old }
    {
        self.state = ForwardedState::Answered(answer);
    }

    /// Tells it that the source was lost, if it waits for its answer.
    pub(crate) fn lose(&mut self)
        ensures after { self.new ≡ lost self.old }
    {
        if self.state.is_open() {
            self.state = ForwardedState::Lost;
        }
    }

    /// Where its answer stands: 0 where it isn't answered, or the source was lost.
    pub(crate) fn standing(&self) -> TxnId
        ensures value { result ≡ standing_of self.now }
    {
        match &self.state {
            ForwardedState::Answered(standing) => standing.standing,
            _ => TxnId::zero(),
        }
    }

    /// That the source was lost becomes the answer that says so.
    pub(crate) fn settle(&mut self, alloc: Global) -> Result<(), NoMemory>
        ensures after { OnOk result (self.new ≡ settled self.old) }
        ensures memory { OnErr result (is_lost self.old.state ≡ true) }
        ensures unchanged { OnErr result (self.new ≡ self.old) }
    {
        if let ForwardedState::Lost = self.state {
            self.state = ForwardedState::Answered(source_lost(alloc)?);
        }
        Ok(())
    }

    /// The reply to its asker, under the asker's own id.
    pub(crate) fn into_reply(self) -> Option<Message>
        requires settled { is_lost self.state ≡ false }
        ensures value { result ≡ reply_of self }
    {
        let id = self.id;
        match self.state {
            ForwardedState::Answered(standing) => Some(standing.answer.into_reply(id)),
            _ => None,
        }
    }
}
