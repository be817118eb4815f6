//! A graph as tasks for a loader, with a table of their values.
ghost use Rattle.std.specs.Prelude.{◌≡◌, ◌+◌, ◌%◌, ◌^◌, slice_get, option_copied, refl};
ghost use Rattle.by_need_graph.specs.Graph.{from, meaning, rules_of, value_at};
ghost use Rattle.by_need_graph.specs.GraphLaws.{graph_laws};

use crate::graph::{Body, Ending, Graph};
use by_need::Theory;
use by_need_loader::{Next, Program, Table};
use std::alloc::AllocError;

/// A task's run: the place of its next question and the sum so far.
#[derive(Clone, Copy, Drop)]
pub struct Run {
    task: u32,
    place: usize,
    sum: u64,
}

impl Theory for Graph {
    type Task = u32;

    type Value = u64;

    type Error = u32;

    type Other = u32;

    ghost rules = { λ g. rules_of g.bodies.items };

    ghost laws = { λ g. graph_laws g.bodies.items g.closed };
}

fn body_at(bodies: &[Body], task: u32) -> Option<&Body>
    ensures { option_copied result ≡ slice_get bodies.now task }
{
    bodies.get(task as usize)
}

fn question_at(questions: &[u32], place: usize) -> Option<u32>
    ensures { result ≡ slice_get questions.now place }
{
    questions.get(place).copied()
}

impl Program for Graph {
    type Running = Run;

    type Waiting = Run;

    type Key = u32;

    ghost runs = { λ g. record {
      whole = meaning g.bodies.items;
      rest = λ run. from (slice_get g.bodies.items run.task) run.sum run.place;
      branch = λ run v. from (slice_get g.bodies.items run.task) ((run.sum + v) % 2 ^ 64) run.place;
      key = λ t. t;
    } };

    fn at_most(&self, a: &u32, b: &u32) -> bool {
        *a <= *b
    }

    fn copy_task(task: &u32) -> Result<u32, AllocError> {
        Ok(*task)
    }

    fn key_of(&self, task: &u32) -> Result<u32, AllocError> {
        Ok(*task)
    }

    fn begin(&self, task: &u32) -> Result<Run, AllocError> {
        Ok(Run {
            task: *task,
            place: 0,
            sum: 1,
        })
    }

    fn run(&self, running: Run) -> Result<Next<u32, u64, u32, u32, Run>, AllocError> {
        match body_at(&self.bodies, running.task) {
            None => Ok(Next::Otherwise(0)),
            Some(body) => match question_at(&body.questions, running.place) {
                Some(asked) => Ok(Next::Asks(
                    asked,
                    Run {
                        task: running.task,
                        place: running.place + 1,
                        sum: running.sum,
                    },
                )),
                None => match body.ending {
                    Ending::Sum => Ok(Next::Done(running.sum)),
                    Ending::Fail(code) => Ok(Next::Raised(code)),
                    Ending::Stop(code) => Ok(Next::Otherwise(code)),
                },
            },
        }
    }

    fn supply(waiting: Run, value: &u64) -> Result<Run, AllocError> {
        Ok(Run {
            task: waiting.task,
            place: waiting.place,
            sum: waiting.sum.wrapping_add(*value),
        })
    }

    ghost follows = { λ g t K. refl };

    ghost tells_apart = { λ g a b _ _. refl };
}

/// The values of a graph's tasks.
#[derive(Drop)]
pub struct Values {
    pub values: Vec<Option<u64>>,
}

impl Table<u32, u64> for Values {
    ghost at = { λ s t. value_at s.values.items t };

    fn defined(&self, task: &u32) -> Option<&u64> {
        match self.values.get(*task as usize) {
            None => None,
            Some(value) => value.as_ref(),
        }
    }

    /// A number without a place finds no room.
    fn define(&mut self, task: u32, value: u64) -> Result<(), AllocError> {
        let place = task as usize;
        if place >= self.values.len() {
            return Err(AllocError);
        }
        self.values[place] = Some(value);
        Ok(())
    }
}
