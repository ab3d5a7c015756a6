//! A node in threads with its upstreams and readers, all over memory.

ghost use Rattle.std.specs.Prelude.{◌≡◌, ◌≤◌, []};
ghost use Rattle.std.specs.List.{AllByRecursion};
ghost use Rattle.ovs_node.specs.Nodes.{NodeInStep, OpenNodeInStep};
ghost use Rattle.ovs_node.specs.Ledger.{IsFresh};

use crate::memory_threads::{SharedParts, senders_of, threads_of};
use crate::node_case_error::NodeCaseError;
use crate::outcome::{Question, shown};
use crate::readers::request_text;
use crate::upstreams::{ScriptedUpstream, UpstreamScript, number_in, read_sessions};
use ovs_case_lines::{count_in, list_in};
use ovs_json::Text;
use ovs_links::Step;
use ovs_node::{
    Board, FeedName, FeedQueue, Handle, Node, NodeLink, NodeName, OpenNode, Opened, Parts, Report,
    View,
};
use ovs_node_threads::{NoObserver, Shared, UpstreamSender, run_relay};
use ovs_query::Select;
use ovs_recorded_desk::{DeskName, DeskStep, relay_desk_sends};
use ovs_session::Limits;
use ovs_types::Schema;
use serde_json::Value;
use std::alloc::Global;
use std::marker::Brand;
use std::sync::{Mutex, Wait};
use std::thread::Threads;

const LIMITS: Limits = Limits {
    most_unsent: 65_536,
    messages: 64,
};

/// `[UPSTREAMS, UNTIL, SELECT]`: the sessions of each upstream, the commit that the reader is to see, and what it asks for, as
/// does a view that is kept back. There is no reader where UNTIL is null, and so many as where it is `[UNTIL, READERS]`. Or
/// `[UPSTREAMS, UNTIL, SELECT, [[QUESTION, ..], ..]]`: then a view is kept back for each of these lists.
#[derive(Drop)]
pub(crate) struct Scene {
    talkers: Talkers,
    // What each view is asked that is kept back.
    questions: Vec<Vec<Question>>,
}

/// Those who talk to the node.
#[derive(Drop)]
pub(crate) struct Talkers {
    pub(crate) upstreams: Vec<Vec<UpstreamScript>>,
    pub(crate) readers: usize,
    // Whether it is to be told how many of them were shown what they wait for.
    counts_readers: bool,
    pub(crate) until: u64,
    pub(crate) request: String,
}

impl Scene {
    /// What stands in a line.
    pub(crate) fn read(
        alloc: Global,
        schema: &Schema,
        parts: &[Value],
    ) -> Result<Scene, NodeCaseError> {
        let [upstreams, until, select, kept_back @ ..] = parts else {
            return Err(NodeCaseError::Malformed);
        };
        let questions = match kept_back {
            [] => one_view(alloc, read_question(alloc, schema, select)?)?,
            [lists] => read_questions(alloc, schema, lists)?,
            _ => return Err(NodeCaseError::Malformed),
        };
        let mut sessions = Vec::new(alloc);
        for upstream in list_in(upstreams)? {
            sessions.push(read_sessions(alloc, schema, upstream)?)?;
        }
        let (until, readers) = read_readers(until)?;
        let talkers = Talkers {
            upstreams: sessions,
            readers: readers.unwrap_or(usize::from(until > 0)),
            counts_readers: readers.is_some(),
            until,
            request: request_text(alloc, select)?,
        };
        Ok(Scene { talkers, questions })
    }

    // A view for each thread, and those that are kept back.
    fn views(&self) -> usize {
        self.talkers
            .upstreams
            .len()
            .saturating_add(self.talkers.readers)
            .saturating_add(self.questions.len())
    }
}

// The number of the commit that readers are to see, 0 where null stands, and how many readers there are, where that stands beside it.
fn read_readers(json: &Value) -> Result<(u64, Option<usize>), NodeCaseError> {
    let Some(parts) = json.as_array() else {
        return Ok((number_in(json)?, None));
    };
    let [until, readers] = parts.as_slice() else {
        return Err(NodeCaseError::Malformed);
    };
    Ok((number_in(until)?, Some(count_in(readers)? as usize)))
}

// A select, or a number: how many steps come after the first so many.
fn read_question(alloc: Global, schema: &Schema, json: &Value) -> Result<Question, NodeCaseError> {
    if let Some(steps) = json.as_u64() {
        return Ok(Question::Steps(steps as usize));
    }
    match Select::read(alloc, json, schema) {
        Ok(select) => Ok(Question::Rows(select)),
        Err(_) => Err(NodeCaseError::Malformed),
    }
}

// What each view is asked that is kept back.
fn read_questions(
    alloc: Global,
    schema: &Schema,
    lists: &Value,
) -> Result<Vec<Vec<Question>>, NodeCaseError> {
    let mut views = Vec::new(alloc);
    for questions in list_in(lists)? {
        let mut read = Vec::new(alloc);
        for question in list_in(questions)? {
            read.push(read_question(alloc, schema, question)?)?;
        }
        views.push(read)?;
    }
    Ok(views)
}

// One view, which is asked this.
fn one_view(alloc: Global, question: Question) -> Result<Vec<Vec<Question>>, NodeCaseError> {
    let mut questions = Vec::new(alloc);
    questions.push(question)?;
    let mut views = Vec::new(alloc);
    views.push(questions)?;
    Ok(views)
}

/// What comes of a scene, where this history was opened.
pub(crate) fn opened<K: NodeName + Send + Sync, R: Threads + Wait + Sync>(
    rt: &R,
    alloc: Global,
    schema: &Schema,
    opened: Opened<Step>,
    scene: Scene,
) -> Result<String, NodeCaseError>
    requires name { (opened.seen.book ≡ K.book) × (schema.now ≡ K.schema) }
{
    let desk = DeskOf {
        database: Text::new(alloc, "net")?,
        opened: Opened::new(),
    };
    let (upstreams, views) = (scene.talkers.upstreams.len(), scene.views());
    let node = OpenNode::<K, Handle<K, &R>>::new(alloc, rt, schema, opened, upstreams, views)?;
    named::<K, Brand, R>(rt, alloc, schema, node, desk, scene)
}

// The same, where the node is opened.
fn named<K: NodeName + Send + Sync, Q: FeedName + Send + Sync, R: Threads + Wait + Sync>(
    rt: &R,
    alloc: Global,
    schema: &Schema,
    node: OpenNode<K, Handle<K, &R>>,
    desk: DeskOf,
    scene: Scene,
) -> Result<String, NodeCaseError>
    requires schema { schema.now ≡ K.schema }
    requires table { node.feed.items.table.shared.table_id ≡ Q.table }
    requires upstreams { node.upstreams ≤ 4 }
    requires store { IsFresh K.schema node.store }
    requires publisher { OpenNodeInStep node }
{
    let parts = node.named::<Q>()?;
    run::<K, Q, Brand, R>(rt, alloc, schema, parts, desk, scene)
}

// What the node's desk is made of.
#[derive(Drop)]
struct DeskOf {
    database: Text,
    opened: Opened<DeskStep>,
}

// Runs the node, and tells what came of it.
fn run<
    'x,
    K: NodeName + Send + Sync,
    Q: FeedName + Send + Sync,
    N: DeskName + Send,
    R: Threads + Wait + Sync,
>(
    rt: &'x R,
    alloc: Global,
    schema: &Schema,
    parts: Parts<K, Q, Handle<K, &'x R>>,
    desk: DeskOf,
    scene: Scene,
) -> Result<String, NodeCaseError>
    requires desk { (desk.opened.seen.book ≡ N.book) × (desk.database ≡ N.database) }
    requires schema { schema.now ≡ K.schema }
    requires in_step { NodeInStep parts.node }
    requires none { parts.node.intake.feed.returned ≡ [] }
    requires unsent { AllByRecursion (λ e. e.1 ≡ []) parts.ends.items }
{
    let Parts {
        node,
        queue,
        ends,
        mut views,
        board,
    } = parts;
    let Scene { talkers, questions } = scene;
    let (until, counts_readers) = (talkers.until, talkers.counts_readers);
    let kept_back = kept_back(alloc, &mut views, questions.len())?;
    let DeskOf { database, opened } = desk;
    let common = SharedParts::<'x, N, R>::new(rt, alloc, talkers.readers, database, opened)?;
    let senders = senders_of(alloc, ends)?;
    let own = CaseParts {
        talkers,
        senders,
        views,
    };
    let report = run_threads(rt, alloc, schema, &queue, &board, &common, node, own)?;
    let told = shown(rt, alloc, &board, &report, kept_back, questions.as_slice())?;
    if !counts_readers {
        return Ok(told);
    }
    let readers = common.count_shown(until);
    Ok(format!(in alloc; "{told} | readers {readers}")?)
}

// So many views, which no thread has.
fn kept_back<K: NodeName>(
    alloc: Global,
    views: &mut Vec<View<K>>,
    count: usize,
) -> Result<Vec<View<K>>, NodeCaseError> {
    let mut kept = Vec::new(alloc);
    for _ in 0..count {
        kept.push(views.pop().ok_or(NodeCaseError::BadCount)?)?;
    }
    Ok(kept)
}

// What the threads of a node are made of.
#[derive(Drop)]
struct CaseParts<K: NodeName, Q: FeedName> {
    talkers: Talkers,
    senders: Vec<UpstreamSender<K, Q, ScriptedUpstream>>,
    views: Vec<View<K>>,
}

// The same, where all is there that the threads share.
fn run_threads<
    'a,
    'x,
    K: NodeName + Send + Sync,
    Q: FeedName + Send + Sync,
    N: DeskName + Send,
    R: Threads + Wait + Sync,
>(
    rt: &'a R,
    alloc: Global,
    schema: &'a Schema,
    queue: &'a FeedQueue<NodeLink<K>, Q>,
    board: &'a Mutex<Board<K>>,
    common: &'a SharedParts<'x, N, R>,
    node: Node<K, Q, Handle<K, &'x R>>,
    own: CaseParts<K, Q>,
) -> Result<Report<K, Q, Handle<K, &'x R>>, NodeCaseError>
    requires schema { schema.now ≡ K.schema }
    requires in_step { NodeInStep node }
    requires none { node.intake.feed.returned ≡ [] }
{
    let CaseParts {
        talkers,
        senders,
        views,
    } = own;
    let threads = threads_of(alloc, talkers, &*common, senders, views)?;
    let shared = Shared {
        rt: &*rt,
        queue: &*queue,
        board: &*board,
        desk: &common.desk,
        wakers: &common.wakers,
        uplink_waker: &common.uplink_waker,
        counters: &common.counters,
        observer: &NoObserver,
        limits: LIMITS,
    };
    relay_desk_sends();
    Ok(run_relay(alloc, &shared, schema, node, threads)?)
}
