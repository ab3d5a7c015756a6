//! The entries of a desk's history, each made of what a call was given and what it gave.

use crate::step::DeskStep;
use ovs_authority::Ask;
use ovs_desk::{BadReply, SourceMessage};
use ovs_json::SessionId;
use ovs_sync::history::EntryFrom;
use ovs_wire::Message;
use std::snapshot::Snapshot;

/// That a session asked, and was replied so.
#[derive(Drop)]
pub(crate) struct AskedEntry {
    pub(crate) session: SessionId,
    pub(crate) ask: Snapshot<Ask>,
    pub(crate) reply: Option<Message>,
}

impl EntryFrom<AskedEntry, DeskStep> for AskedEntry {
    ghost use Rattle.ovs_recorded_desk.specs.declared.step.DeskStep.TheVariants as steps;

    ghost entry = { λ e. steps.Asked e.session e.ask.value e.reply };
}

/// What a session was given.
#[derive(Drop)]
pub(crate) struct CollectedEntry {
    pub(crate) session: SessionId,
    pub(crate) message: Option<Message>,
}

impl EntryFrom<CollectedEntry, DeskStep> for CollectedEntry {
    ghost use Rattle.ovs_recorded_desk.specs.declared.step.DeskStep.TheVariants as steps;

    ghost entry = { λ e. steps.Collected e.session e.message };
}

/// What went up.
#[derive(Drop)]
pub(crate) struct WentUpEntry {
    pub(crate) message: Option<Message>,
}

impl EntryFrom<WentUpEntry, DeskStep> for WentUpEntry {
    ghost use Rattle.ovs_recorded_desk.specs.declared.step.DeskStep.TheVariants as steps;

    ghost entry = { λ e. steps.WentUp e.message };
}

/// What the source said, and what came of it.
#[derive(Drop)]
pub(crate) struct HeardEntry {
    pub(crate) message: Snapshot<SourceMessage>,
    pub(crate) result: Result<(), BadReply>,
}

impl EntryFrom<HeardEntry, DeskStep> for HeardEntry {
    ghost use Rattle.ovs_recorded_desk.specs.declared.step.DeskStep.TheVariants as steps;

    ghost entry = { λ e. steps.Heard e.message.value e.result };
}

/// A call that gives nothing and can't fail.
#[derive(Drop)]
pub(crate) enum EventEntry {
    Ended(SessionId),
    FoundSource,
    LostSource,
}

impl EntryFrom<EventEntry, DeskStep> for EventEntry {
    ghost use Rattle.ovs_recorded_desk.specs.Steps.{event_step};

    ghost entry = { λ e. event_step e };
}
