//! A table of tasks with one name.

use crate::Table;
use ruby_types::{CPath, Task, Text, Value};
use std::alloc::{AllocError, Global};
use std::test::Fail;

/// Gives a task that is not there a number for its value.
fn put(table: &mut Table, task: Task, number: i64) -> Result<(), AllocError> {
    if table.defined(&task).is_some() {
        return Err(AllocError);
    }
    by_need_loader::Table::define(table, task, Value::Int(number))
}

fn number_of(table: &Table, task: &Task) -> i64 {
    match table.defined(task) {
        Some(Value::Int(number)) => *number,
        _ => 0,
    }
}

fn path(alloc: Global) -> Result<CPath, AllocError> {
    let mut path = CPath::new(alloc);
    path.push(Text::from_bytes(alloc, b"Post")?)?;
    Ok(path)
}

#[test]
fn tasks_of_one_name_have_values_of_their_own(rt: HostRuntime) -> Result<(), Fail> {
    let alloc = rt.alloc();
    let mut table = Table::new(alloc);
    table.reserve(3)?;
    put(&mut table, Task::File(Text::from_bytes(alloc, b"Post")?), 1)?;
    put(&mut table, Task::Const(path(alloc)?), 2)?;
    put(&mut table, Task::Ancestors(path(alloc)?), 3)?;
    assert_eq!(rt;
        number_of(&table, &Task::File(Text::from_bytes(alloc, b"Post")?)),
        1
    );
    assert_eq!(rt; number_of(&table, &Task::Const(path(alloc)?)), 2);
    assert_eq!(rt; number_of(&table, &Task::Ancestors(path(alloc)?)), 3);
    assert_eq!(rt;
        number_of(&table, &Task::File(Text::from_bytes(alloc, b"Pos")?)),
        0
    );
    Ok(())
}
