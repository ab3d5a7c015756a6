//! The entries of a desk's history, each made of what a call was given and what it gave.

use crate::holding_desk::HoldingDesk;
use crate::step::SourceStep;
use ovs_authority::{Ask, Response};
use ovs_json::SessionId;
use ovs_links::Link;
use ovs_sync::history::EntryFrom;
use ovs_wire::Message;
use std::snapshot::Snapshot;

/// That a session asked, and was replied so.
#[derive(Drop)]
pub(crate) struct SourceAskedEntry {
    pub(crate) session: SessionId,
    pub(crate) ask: Snapshot<Ask>,
    pub(crate) answer: Snapshot<Response>,
    pub(crate) before: Snapshot<HoldingDesk>,
    pub(crate) after: Snapshot<HoldingDesk>,
}

impl EntryFrom<SourceAskedEntry, SourceStep> for SourceAskedEntry {
    ghost use Rattle.ovs_authority.specs.Answers.{reply_of};
    ghost use Rattle.ovs_recorded_source.specs.Steps.{link_behind};
    ghost use Rattle.ovs_recorded_source.specs.declared.step.SourceStep.TheVariants as steps;

    ghost entry = { λ e. steps.Asked e.session e.ask.value (reply_of e.answer.value e.ask.value.id) (link_behind e.before.value.desk.unpublished e.after.value.desk.unpublished) };
}

/// The reply that a session was given.
#[derive(Drop)]
pub(crate) struct GivenEntry {
    pub(crate) session: SessionId,
    pub(crate) reply: Message,
}

impl EntryFrom<GivenEntry, SourceStep> for GivenEntry {
    ghost use Rattle.ovs_recorded_source.specs.declared.step.SourceStep.TheVariants as steps;

    ghost entry = { λ e. steps.Given e.session e.reply };
}

/// The notice that a session was given.
#[derive(Drop)]
pub(crate) struct SourceCollectedEntry {
    pub(crate) session: SessionId,
    pub(crate) notice: Option<Message>,
}

impl EntryFrom<SourceCollectedEntry, SourceStep> for SourceCollectedEntry {
    ghost use Rattle.ovs_recorded_source.specs.declared.step.SourceStep.TheVariants as steps;

    ghost entry = { λ e. steps.Collected e.session e.notice };
}

/// That a session ended.
#[derive(Drop)]
pub(crate) struct EndedEntry {
    pub(crate) session: SessionId,
}

impl EntryFrom<EndedEntry, SourceStep> for EndedEntry {
    ghost use Rattle.ovs_recorded_source.specs.declared.step.SourceStep.TheVariants as steps;

    ghost entry = { λ e. steps.Ended e.session };
}

/// The link that was taken out.
#[derive(Drop)]
pub(crate) struct TookEntry {
    pub(crate) link: Option<Link>,
}

impl EntryFrom<TookEntry, SourceStep> for TookEntry {
    ghost use Rattle.ovs_recorded_source.specs.declared.step.SourceStep.TheVariants as steps;

    ghost entry = { λ e. steps.TookLink e.link };
}

/// That an epoch began, and of which desk.
#[derive(Drop)]
pub(crate) struct BeganEntry {
    pub(crate) before: Snapshot<HoldingDesk>,
}

impl EntryFrom<BeganEntry, SourceStep> for BeganEntry {
    ghost use Rattle.ovs_recorded_source.specs.Steps.{first_link};
    ghost use Rattle.ovs_recorded_source.specs.declared.step.SourceStep.TheVariants as steps;

    ghost entry = { λ e. steps.BeganEpoch (first_link e.before.value.desk) };
}
