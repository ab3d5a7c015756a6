//! What became of a node, as text.

use crate::node_case_error::NodeCaseError;
use ovs_case_lines::letter;
use ovs_links::Settled;
use ovs_node::{Board, FeedName, NodeName, Report, Told, View, teach};
use ovs_query::Select;
use ovs_types::TxnId;
use std::alloc::Global;
use std::sync::{Mutex, Wait};

// The head of the store, its links, what was refused, and whether the chain is whole.
fn ended<K: NodeName, Q: FeedName, H>(
    alloc: Global,
    report: &Report<K, Q, H>,
) -> Result<String, NodeCaseError> {
    let store = &report.store;
    let (head, links, chain) = (letter(store.head()), store.len(), store.chain_len());
    let (forks, short) = (report.forks, report.short);
    let settled = match report.settled {
        Settled::Done => "done",
        Settled::Stuck(_) => "stuck",
    };
    Ok(format!(in alloc;
        "head {head} links {links} chain {chain} forks {forks} short {short} {settled}"
    )?)
}

// How many steps of a chain from the id 0 a view tells after the first n.
fn told_after<K: NodeName>(
    alloc: Global,
    view: &mut View<K>,
    n: usize,
) -> Result<usize, NodeCaseError> {
    let (_start, steps) = view.changes_since(alloc, TxnId::zero(), n)?;
    Ok(steps.len())
}

/// How the node ended; and, for each view that is taught what was told, its head, and how many steps it tells after the first
/// and after the second.
pub(crate) fn told<K: NodeName, Q: FeedName, H>(
    alloc: Global,
    report: &Report<K, Q, H>,
    views: Vec<View<K>>,
) -> Result<String, NodeCaseError> {
    let mut told = ended(alloc, report)?;
    for view in views {
        let seen = seen_by(alloc, &report.told, view)?;
        told.push_str(seen.as_str())?;
    }
    Ok(told)
}

fn seen_by<K: NodeName>(
    alloc: Global,
    told: &Told<K>,
    view: View<K>,
) -> Result<String, NodeCaseError> {
    let mut view = view;
    view.learn(told);
    let head = letter(view.head()?);
    let after_first = told_after(alloc, &mut view, 1)?;
    let after_second = told_after(alloc, &mut view, 2)?;
    Ok(format!(in alloc; " | {head} {after_first} {after_second}")?)
}

/// How long the chain is, and how often views answered while links were sent.
pub(crate) fn measured<K: NodeName, Q: FeedName, H>(
    alloc: Global,
    report: &Report<K, Q, H>,
    answers: u64,
) -> Result<String, NodeCaseError> {
    let chain = report.store.chain_len();
    Ok(format!(in alloc; "chain {chain} answers {answers}")?)
}

/// What a view that was kept back is asked.
#[derive(Drop)]
pub(crate) enum Question {
    /// For the rows that a select shows.
    Rows(Select),
    /// How many steps it tells after the first n.
    Steps(usize),
}

// What a view answers.
fn answer_of<K: NodeName>(
    alloc: Global,
    view: &mut View<K>,
    question: &Question,
) -> Result<String, NodeCaseError> {
    match question {
        Question::Rows(select) => Ok(view.select(alloc, select)?.to_string(alloc)?),
        Question::Steps(n) => {
            let steps = told_after(alloc, view, *n)?;
            Ok(format!(in alloc; "{steps}")?)
        }
    }
}

// What a view answers once the board has taught it.
fn answers_of<K: NodeName, R: Wait>(
    rt: &R,
    alloc: Global,
    board: &Mutex<Board<K>>,
    view: View<K>,
    questions: &[Question],
) -> Result<String, NodeCaseError> {
    let mut view = view;
    teach(rt, board, &mut view);
    let mut answers = String::from_str(alloc, " |")?;
    for question in questions {
        let answer = answer_of(alloc, &mut view, question)?;
        answers.push_str(" ")?;
        answers.push_str(answer.as_str())?;
    }
    Ok(answers)
}

/// How the node ended; and what each of these views answers, which the board teaches one after another.
pub(crate) fn shown<K: NodeName, Q: FeedName, H, R: Wait>(
    rt: &R,
    alloc: Global,
    board: &Mutex<Board<K>>,
    report: &Report<K, Q, H>,
    views: Vec<View<K>>,
    questions: &[Vec<Question>],
) -> Result<String, NodeCaseError> {
    let mut shown = ended(alloc, report)?;
    for (view, questions) in views.into_iter().zip(questions) {
        let answers = answers_of(rt, alloc, board, view, questions.as_slice())?;
        shown.push_str(answers.as_str())?;
    }
    Ok(shown)
}
