//! Who is to blame for a task that stays unknown, by the definition.
ghost use Rattle.std.specs.Prelude.{◌≡◌, ℕ, List, ◌∷◌, length, IfOk};
ghost use Rattle.by_need.specs.Blame.{blame, follow, least_of, next, ring_of, until, walk};
ghost use Rattle.by_need.specs.Rounds.{known};
ghost use Rattle.by_need_loader.specs.Failures.{cause};
ghost use Rattle.by_need_graph.specs.Graph.{rules_of, value_at};
ghost use Rattle.by_need_graph.specs.declared.graph.Body.{Body};

use crate::graph::Graph;
use crate::rounds::{Answer, run_task};
use by_need_loader::Failure;
use std::alloc::{AllocError, Global};

/// The task that a task waits for; itself where it waits for none.
fn next_task(graph: &Graph, values: &[Option<u64>], task: u32) -> u32
    requires { (t : ℕ) → value_at values.now t ≡ known (rules_of graph.now.bodies.items) t }
    ensures { result ≡ next (rules_of graph.now.bodies.items) task }
{
    match run_task(graph, task, values) {
        Answer::Done(_) => task,
        Answer::Raised(_) => task,
        Answer::Asks(asked) => asked,
        Answer::Otherwise(_) => task,
    }
}

/// Where as many questions lead as there are tasks.
fn last_task(graph: &Graph, values: &[Option<u64>], task: u32) -> u32
    requires { (t : ℕ) → value_at values.now t ≡ known (rules_of graph.now.bodies.items) t }
    ensures { result ≡ follow (rules_of graph.now.bodies.items) (length graph.now.bodies.items) task }
{
    let mut last = task;
    'questions: for _question in 0..graph.bodies.len() {
        last = next_task(graph, values, last);
    }
    last
}

/// As many tasks on the way as there are tasks.
fn walk_from(
    alloc: Global,
    graph: &Graph,
    values: &[Option<u64>],
    task: u32,
) -> Result<Vec<u32>, AllocError>
    requires { (t : ℕ) → value_at values.now t ≡ known (rules_of graph.now.bodies.items) t }
    ensures { IfOk result (λ way. way.items ≡ walk (rules_of graph.now.bodies.items)
        (length graph.now.bodies.items) task) }
{
    let mut way = Vec::new(alloc);
    let mut last = task;
    'questions: for _question in 0..graph.bodies.len() {
        way.push(last)?;
        last = next_task(graph, values, last);
    }
    Ok(way)
}

fn least_task(task: u32, others: &[u32]) -> u32
    ensures { (bodies : List Body) → result ≡ least_of (rules_of bodies) task others.now }
{
    let mut least = task;
    'others: for other in others {
        if least > *other {
            least = *other;
        }
    }
    least
}

/// A task and the front of a list, up to that task.
fn ring_with(alloc: Global, task: u32, behind: &[u32]) -> Result<Vec<u32>, AllocError>
    ensures { IfOk result (λ ring. (bodies : List Body) → ring.items ≡ task ∷ until (rules_of bodies) task behind.now) }
{
    let mut ring = Vec::new(alloc);
    ring.push(task)?;
    'behind: for other in behind {
        if *other == task {
            return Ok(ring);
        }
        ring.push(*other)?;
    }
    Ok(ring)
}

/// The ring that a task is on, from its least task.
fn ring_on(
    alloc: Global,
    graph: &Graph,
    values: &[Option<u64>],
    task: u32,
) -> Result<Vec<u32>, AllocError>
    requires { (t : ℕ) → value_at values.now t ≡ known (rules_of graph.now.bodies.items) t }
    ensures { IfOk result (λ ring. ring.items ≡ ring_of (rules_of graph.now.bodies.items) task) }
{
    let way = walk_from(alloc, graph, values, task)?;
    let least = least_task(task, &way);
    let behind = walk_from(alloc, graph, values, next_task(graph, values, least))?;
    let ring = ring_with(alloc, least, &behind)?;
    Ok(ring)
}

/// The blame of a task, over the known values of all; an empty circle where it is known.
pub fn blame_by_rounds(
    alloc: Global,
    graph: &Graph,
    values: &[Option<u64>],
    task: u32,
) -> Result<Failure<u32, u32, u32>, AllocError>
    requires { (t : ℕ) → value_at values.now t ≡ known (rules_of graph.now.bodies.items) t }
    ensures { IfOk result (λ failure. cause failure ≡ blame (rules_of graph.now.bodies.items) task) }
{
    let last = last_task(graph, values, task);
    match run_task(graph, last, values) {
        Answer::Done(_) => Ok(Failure::Circle(Vec::new(alloc))),
        Answer::Raised(error) => Ok(Failure::Raised(error)),
        Answer::Asks(_) => Ok(Failure::Circle(ring_on(alloc, graph, values, last)?)),
        Answer::Otherwise(end) => Ok(Failure::Otherwise(end)),
    }
}
