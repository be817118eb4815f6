//! What is known of a graph's tasks, by rounds over all of them.
ghost use Rattle.std.specs.Prelude.{◌≡◌, ◌<◌, ℕ, length, replicate, IfOk, None};
ghost use Rattle.by_need.specs.Asking.{over};
ghost use Rattle.by_need.specs.Rounds.{known, value_or};
ghost use Rattle.by_need_graph.specs.Graph.{answer_of, asks, rules_of, value_at};

use crate::graph::{Body, Ending, Graph};
use std::alloc::{AllocError, Global};

/// What a run comes to over what is known.
#[derive(Drop)]
pub enum Answer {
    Done(u64),
    Raised(u32),
    Asks(u32),
    Otherwise(u32),
}

pub(crate) fn value_of(values: &[Option<u64>], task: u32) -> Option<u64>
    ensures { result ≡ value_at values.now task }
{
    match values.get(task as usize) {
        None => None,
        Some(value) => *value,
    }
}

fn run_body(body: &Body, values: &[Option<u64>]) -> Answer
    ensures { answer_of result ≡ (over (value_at values.now) (asks 1 body.now.questions.items body.now.ending)).answer }
{
    let mut sum = 1u64;
    'questions: for question in &body.questions {
        match value_of(values, *question) {
            None => return Answer::Asks(*question),
            Some(value) => sum = sum.wrapping_add(value),
        }
    }
    match body.ending {
        Ending::Sum => Answer::Done(sum),
        Ending::Fail(code) => Answer::Raised(code),
        Ending::Stop(code) => Answer::Otherwise(code),
    }
}

/// One run of a task over some values.
pub fn run_task(graph: &Graph, task: u32, values: &[Option<u64>]) -> Answer
    ensures { answer_of result ≡ ((rules_of graph.now.bodies.items).run task (value_at values.now)).answer }
{
    match graph.bodies.get(task as usize) {
        None => Answer::Otherwise(0),
        Some(body) => run_body(body, values),
    }
}

/// The value that a run is done with, else what was known before.
fn value_or_before(graph: &Graph, task: u32, values: &[Option<u64>]) -> Option<u64>
    ensures { result ≡ value_or (value_at values.now task)
        ((rules_of graph.now.bodies.items).run task (value_at values.now)).answer }
{
    match run_task(graph, task, values) {
        Answer::Done(value) => Some(value),
        Answer::Raised(_) => value_of(values, task),
        Answer::Asks(_) => value_of(values, task),
        Answer::Otherwise(_) => value_of(values, task),
    }
}

/// One round over all tasks.
fn next_round(
    alloc: Global,
    graph: &Graph,
    values: &[Option<u64>],
) -> Result<Vec<Option<u64>>, AllocError>
    requires { length values.now ≡ length graph.now.bodies.items }
    ensures length { IfOk result (λ next. length next.items ≡ length values.now) }
    ensures round { IfOk result (λ next. (t : ℕ) → t < length values.now →
        value_at next.items t ≡ value_or (value_at values.now t)
        ((rules_of graph.now.bodies.items).run t (value_at values.now)).answer) }
{
    let count = graph.bodies.len() as u32;
    let mut next = Vec::new(alloc);
    'tasks: for task in 0..count {
        next.push(value_or_before(graph, task, values))?;
    }
    Ok(next)
}

/// No values of as many tasks.
pub(crate) fn no_values(alloc: Global, count: usize) -> Result<Vec<Option<u64>>, AllocError>
    ensures { IfOk result (λ values. values.items ≡ replicate count None) }
{
    let values = vec![in alloc; None; count]?;
    Ok(values)
}

/// The known values of all tasks.
pub fn known_values(alloc: Global, graph: &Graph) -> Result<Vec<Option<u64>>, AllocError>
    ensures length { IfOk result (λ values. length values.items ≡ length graph.now.bodies.items) }
    ensures known { IfOk result (λ values. (t : ℕ) →
        value_at values.items t ≡ known (rules_of graph.now.bodies.items) t) }
{
    let count = graph.bodies.len();
    let mut values = no_values(alloc, count)?;
    'rounds: for _done in 0..count {
        values = next_round(alloc, graph, &values)?;
    }
    Ok(values)
}
