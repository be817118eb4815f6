//! The ring among the open tasks.
ghost use Rattle.std.specs.Prelude.{◌<◌, length, drop};
ghost use Rattle.by_need.specs.Open.{AllTasks};
ghost use Rattle.by_need_loader.specs.Ring.{IsTurned, HasLeast};

use crate::program::Program;

/// The place of the least task.
fn least_place<Y: Program>(theory: &Y, tasks: &[Y::Task]) -> usize
    requires { 0 < length tasks.now }
    ensures within { result < length tasks.now }
    ensures least { AllTasks (Y.rules theory.now) tasks.now → HasLeast (Y.rules theory.now).at_most tasks.now result }
{
    let mut best = 0;
    for i in 1..tasks.len() {
        if theory.at_most(&tasks[best], &tasks[i]) {
            continue;
        }
        best = i;
    }
    best
}

/// The tasks of a ring, turned so that the least comes first.
fn from_least<Y: Program>(theory: &Y, mut ring: Vec<Y::Task>) -> Vec<Y::Task>
    requires { 0 < length ring.items }
    ensures { AllTasks (Y.rules theory.now) ring.items →
        IsTurned (Y.rules theory.now).at_most ring.items result.items }
{
    let least = least_place(theory, &ring);
    ring.rotate_left(least);
    ring
}

/// The tasks from a place on, turned so that the least comes first. Where there is no such place, all as they are.
pub fn ring_from<Y: Program>(theory: &Y, mut tasks: Vec<Y::Task>, place: usize) -> Vec<Y::Task>
    ensures { place < length tasks.items → AllTasks (Y.rules theory.now) tasks.items →
        IsTurned (Y.rules theory.now).at_most (drop place tasks.items) result.items }
{
    if place >= tasks.len() {
        return tasks;
    }
    let length = tasks.len() - place;
    tasks.rotate_left(place);
    tasks.truncate(length);
    from_least(theory, tasks)
}
