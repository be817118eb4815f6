//! A load of a graph's task beside the rounds.
ghost use Rattle.std.specs.Prelude.{◌≡◌, ◌≤◌, ◌<◌, ℕ, length, true, false, List, Option, Some, IfOk, IfSome, IsNone};
ghost use Rattle.by_need.specs.Rounds.{Part, is_task, known};
ghost use Rattle.by_need_loader.specs.Ends.{Ends};
ghost use Rattle.by_need_check.specs.Checks.{blamed, causes};
ghost use Rattle.by_need_graph.specs.Graph.{questions_below, rules_of, value_at};

use crate::graph::{Graph, are_below};
use crate::program::Values;
use crate::rounds::{known_values, no_values, value_of};
use by_need_check::{Checked, check_tasks};
use by_need_loader::{Loaded, load};
use std::alloc::{AllocError, Global};

/// Whether a value is missing or the known one.
fn agrees(values: &[Option<u64>], known: &[Option<u64>], task: u32) -> bool
    ensures agrees { result ≡ true → (v : ℕ) → value_at values.now task ≡ Some v → value_at known.now task ≡ Some v }
    ensures differs { result ≡ false →
        ((v : ℕ) → value_at values.now task ≡ Some v → value_at known.now task ≡ Some v) → ⊥ }
{
    match value_of(values, task) {
        None => true,
        Some(value) => match value_of(known, task) {
            None => false,
            Some(other) => value == other,
        },
    }
}

/// Whether all values of the tasks below a count agree.
fn all_agree(values: &[Option<u64>], known: &[Option<u64>], count: u32) -> bool
    ensures agree { result ≡ true → (t v : ℕ) → t < count → value_at values.now t ≡ Some v →
        value_at known.now t ≡ Some v }
    ensures differ { result ≡ false →
        ((t v : ℕ) → t < count → value_at values.now t ≡ Some v → value_at known.now t ≡ Some v) → ⊥ }
{
    'tasks: for task in 0..count {
        if !agrees(values, known, task) {
            return false;
        }
    }
    true
}

/// Loads a task over a table that is part of what is known; None where the table is no such part, or there is no such
/// task.
pub fn load_beside_rounds(
    alloc: Global,
    graph: &Graph,
    table: &mut Values,
    task: u32,
) -> Result<Option<Loaded<u32, u32, u32>>, AllocError>
    ensures ends { IfOk result
        (λ loaded. IfSome loaded (Ends (rules_of graph.now.bodies.items) task (value_at table.new.values.items))) }
    ensures refused { IfOk result (λ loaded. IsNone loaded → is_task (rules_of graph.now.bodies.items) task ≡ true →
        length table.old.values.items ≡ length graph.now.bodies.items →
        Part (value_at table.old.values.items) (known (rules_of graph.now.bodies.items)) → ⊥) }
{
    let known = known_values(alloc, graph)?;
    let count = graph.bodies.len() as u32;
    if task >= count {
        return Ok(None);
    }
    if table.values.len() != graph.bodies.len() {
        return Ok(None);
    }
    if !all_agree(&table.values, &known, count) {
        return Ok(None);
    }
    Ok(Some(load(alloc, graph, table, task)?))
}

/// Loads a task over an empty table; None where there is no such task.
pub fn load_alone(
    alloc: Global,
    graph: &Graph,
    task: u32,
) -> Result<Option<Loaded<u32, u32, u32>>, AllocError>
    ensures ends { IfOk result (λ loaded. IfSome loaded (λ end. (table : List (Option ℕ))
        × Ends (rules_of graph.now.bodies.items) task (value_at table) end)) }
    ensures refused { IfOk result (λ loaded. IsNone loaded → length graph.now.bodies.items ≤ task) }
{
    let count = graph.bodies.len();
    if task as usize >= count {
        return Ok(None);
    }
    let mut table = Values {
        values: no_values(alloc, count)?,
    };
    Ok(Some(load(alloc, graph, &mut table, task)?))
}

/// Loads tasks one after another over an empty table; None where some number is no task.
pub fn check_alone(
    alloc: Global,
    graph: &Graph,
    tasks: &[u32],
) -> Result<Option<Checked<u32, u32, u32>>, AllocError>
    ensures failed { IfOk result (λ checked. IfSome checked (λ found. causes found.failed.items
        ≡ blamed (rules_of graph.now.bodies.items) tasks.now)) }
    ensures refused { IfOk result (λ checked. IsNone checked →
        questions_below (length graph.now.bodies.items) tasks.now ≡ false) }
{
    let count = graph.bodies.len();
    if !are_below(tasks, count) {
        return Ok(None);
    }
    let mut table = Values {
        values: no_values(alloc, count)?,
    };
    Ok(Some(check_tasks(alloc, graph, &mut table, tasks)?))
}
