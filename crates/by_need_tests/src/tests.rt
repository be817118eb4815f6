//! Loads beside the rounds, from every part of what is known as table: all graphs of up to three tasks with up to two
//! questions each, where each task ends by a value, an error or an end of the other kind. And loads that nest deep.
use by_need_graph::rounds::Answer;
use by_need_graph::{
    Body, Ending, Graph, Values, check_alone, known_values, load_alone, load_beside_rounds,
    run_task,
};
use by_need_loader::{Failure, Loaded};
use std::alloc::{AllocError, Global};
use std::test::Fail;

/// The ending of a code below 3. The task's own number tells whose error it is.
fn ending_of(task: u32, code: u32) -> Ending {
    match code {
        0 => Ending::Sum,
        1 => Ending::Fail(task),
        _ => Ending::Stop(task),
    }
}

/// The questions of a choice among 1 + count + count²: none, one, or two, for tasks below the count.
fn questions_of(alloc: Global, choice: u32, count: u32) -> Result<Vec<u32>, AllocError> {
    let mut questions = Vec::new(alloc);
    if 0 < choice && choice <= count {
        questions.push(choice - 1)?;
    } else if 0 < count && count < choice {
        let pair = choice - 1 - count;
        questions.push(pair / count)?;
        questions.push(pair % count)?;
    }
    Ok(questions)
}

/// The graph of a number, which has a digit for each body: one of 3 (1 + count + count²).
fn graph_of(alloc: Global, number: u32, count: u32) -> Result<Option<Graph>, AllocError> {
    let choices = count
        .wrapping_mul(count)
        .wrapping_add(count)
        .wrapping_add(1);
    let mut bodies = Vec::new(alloc);
    let mut rest = number;
    for task in 0..count {
        if choices == 0 {
            break;
        }
        let questions = questions_of(alloc, rest % choices, count)?;
        rest /= choices;
        let ending = ending_of(task, rest % 3);
        rest /= 3;
        bodies.push(Body { questions, ending })?;
    }
    Ok(Graph::new(bodies))
}

/// The task that a task waits for; itself where it waits for none.
fn asked_by(graph: &Graph, known: &[Option<u64>], task: u32) -> u32 {
    match run_task(graph, task, known) {
        Answer::Asks(asked) => asked,
        _ => task,
    }
}

/// Whether these are the tasks of the ring that a task is on, once each, as they ask, from the least.
fn is_ring(graph: &Graph, known: &[Option<u64>], ring: &[u32], on: u32) -> bool {
    let mut last = on;
    let mut least = on;
    for _ in 0..4 {
        last = asked_by(graph, known, last);
        least = least.min(last);
    }
    let mut wanted = least;
    let mut is_round = false;
    for task in ring {
        if is_round || *task != wanted {
            return false;
        }
        wanted = asked_by(graph, known, wanted);
        is_round = wanted == least;
    }
    is_round
}

/// Whether a failure is what the questions of an unknown task lead to: four end, or are on a ring.
fn is_blame(
    graph: &Graph,
    known: &[Option<u64>],
    task: u32,
    failure: &Failure<u32, u32, u32>,
) -> bool {
    let mut last = task;
    for _ in 0..4 {
        last = asked_by(graph, known, last);
    }
    match run_task(graph, last, known) {
        Answer::Done(_) => false,
        Answer::Raised(code) => match failure {
            Failure::Raised(other) => *other == code,
            _ => false,
        },
        Answer::Otherwise(code) => match failure {
            Failure::Otherwise(other) => *other == code,
            _ => false,
        },
        Answer::Asks(_) => match failure {
            Failure::Circle(ring) => is_ring(graph, known, ring, last),
            _ => false,
        },
    }
}

/// The known values of the tasks whose bit is set; None where one of those is not known.
fn part_of(alloc: Global, known: &[Option<u64>], bits: u32) -> Result<Option<Values>, AllocError> {
    let mut rest = bits;
    for value in known {
        if rest % 2 == 1 && value.is_none() {
            return Ok(None);
        }
        rest /= 2;
    }
    let mut values = Vec::new(alloc);
    rest = bits;
    for value in known {
        values.push(if rest % 2 == 1 { *value } else { None })?;
        rest /= 2;
    }
    Ok(Some(Values { values }))
}

/// Whether a load over a part of what is known ends as the rounds say.
fn agrees(
    alloc: Global,
    graph: &Graph,
    known: &[Option<u64>],
    mut table: Values,
    task: u32,
) -> Result<bool, AllocError> {
    let value = match known.get(task as usize) {
        None => None,
        Some(value) => *value,
    };
    match load_beside_rounds(alloc, graph, &mut table, task)? {
        None => Ok(false),
        Some(Loaded::Done) => Ok(
            value.is_some() && table.values.get(task as usize).copied() == Some(value),
        ),
        Some(Loaded::Failed(failure)) => Ok(
            value.is_none() && is_blame(graph, known, task, &failure),
        ),
    }
}

/// Whether every load of a graph's tasks, from every part of what is known, ends as the rounds say.
fn all_agree(alloc: Global, graph: &Graph, count: u32) -> Result<bool, AllocError> {
    let known = known_values(alloc, graph)?;
    for bits in 0..(1u32 << (count % 5)) {
        for task in 0..count {
            match part_of(alloc, &known, bits)? {
                None => break,
                Some(table) => {
                    if !agrees(alloc, graph, &known, table, task)? {
                        return Ok(false);
                    }
                }
            }
        }
    }
    Ok(true)
}

/// The number of the graphs from one number to another that agree.
fn agreeing(alloc: Global, count: u32, from: u32, to: u32) -> Result<u32, AllocError> {
    let mut agreeing = 0u32;
    for number in from..to {
        if let Some(graph) = graph_of(alloc, number, count)? {
            if all_agree(alloc, &graph, count)? {
                agreeing = agreeing.wrapping_add(1);
            }
        }
    }
    Ok(agreeing)
}

#[test]
fn every_graph_of_up_to_two_tasks(rt: HostRuntime) -> Result<(), Fail> {
    // 9 and (3 · 7)² graphs
    let alloc = rt.alloc();
    assert_eq!(rt; agreeing(alloc, 1, 0, 9)?, 9);
    assert_eq!(rt; agreeing(alloc, 2, 0, 441)?, 441);
    Ok(())
}

#[test]
fn every_graph_of_three_tasks(rt: HostRuntime) -> Result<(), Fail> {
    // (3 · 13)³ graphs
    assert_eq!(rt; agreeing(rt.alloc(), 3, 0, 59_319)?, 59_319);
    Ok(())
}

#[test]
fn a_ring_behind_a_tail_is_named_from_its_least(rt: HostRuntime) -> Result<(), Fail> {
    // 0 asks for 4 and 3, 3 for 4 and 2, 2 for 1, 1 for 3, and 4 is done
    let alloc = rt.alloc();
    let bodies = vec![in alloc;
        Body {
            questions: vec![in alloc; 4, 3]?,
            ending: Ending::Sum
        },
        Body {
            questions: vec![in alloc; 3]?,
            ending: Ending::Sum
        },
        Body {
            questions: vec![in alloc; 1]?,
            ending: Ending::Sum
        },
        Body {
            questions: vec![in alloc; 4, 2]?,
            ending: Ending::Sum
        },
        Body {
            questions: vec![in alloc]?,
            ending: Ending::Sum
        },
    ]?;
    let Some(graph) = Graph::new(bodies) else {
        assert!(rt; false);
        return Ok(());
    };
    let mut table = Values {
        values: vec![in alloc; None; 5]?,
    };
    match load_beside_rounds(alloc, &graph, &mut table, 0)? {
        Some(Loaded::Failed(Failure::Circle(ring))) => {
            assert_eq!(rt; ring.as_slice(), [1, 3, 2].as_slice());
        }
        _ => assert!(rt; false),
    }
    assert_eq!(rt;
        table.values.as_slice(),
        [None, None, None, None, Some(1)].as_slice()
    );
    Ok(())
}

/// A graph in which each task asks for the next one, and the last one for a task, if any.
fn chain(alloc: Global, length: u32, last: Option<u32>) -> Result<Option<Graph>, AllocError> {
    let mut bodies = Vec::new(alloc);
    for task in 0..length {
        let mut questions = Vec::new(alloc);
        let next = task.wrapping_add(1);
        if next < length {
            questions.push(next)?;
        } else if let Some(asked) = last {
            questions.push(asked)?;
        }
        let ending = Ending::Sum;
        bodies.push(Body { questions, ending })?;
    }
    Ok(Graph::new(bodies))
}

#[test]
fn a_chain_of_100_000_tasks_is_loaded(rt: HostRuntime) -> Result<(), Fail> {
    let alloc = rt.alloc();
    let Some(graph) = chain(alloc, 100_000, None)? else {
        assert!(rt; false);
        return Ok(());
    };
    match load_alone(alloc, &graph, 0)? {
        Some(Loaded::Done) => {}
        _ => assert!(rt; false),
    }
    Ok(())
}

#[test]
fn a_ring_at_the_end_of_100_000_tasks_is_found(rt: HostRuntime) -> Result<(), Fail> {
    // the ring is entered at its greatest task but one, so that it is turned
    let alloc = rt.alloc();
    let Some(graph) = chain(alloc, 100_000, Some(99_000))? else {
        assert!(rt; false);
        return Ok(());
    };
    match load_alone(alloc, &graph, 99_998)? {
        Some(Loaded::Failed(Failure::Circle(ring))) => {
            assert_eq!(rt; ring.len(), 1_000);
            assert_eq!(rt; ring.first().copied(), Some(99_000));
            assert_eq!(rt; ring.last().copied(), Some(99_999));
        }
        _ => assert!(rt; false),
    }
    match load_alone(alloc, &graph, 0)? {
        Some(Loaded::Failed(Failure::Circle(ring))) => assert_eq!(rt; ring.len(), 1_000),
        _ => assert!(rt; false),
    }
    Ok(())
}

/// Whether a failure is the ring of these tasks.
fn is_circle(failure: &Failure<u32, u32, u32>, tasks: &[u32]) -> bool {
    match failure {
        Failure::Circle(ring) => ring.as_slice() == tasks,
        _ => false,
    }
}

#[test]
fn all_tasks_are_checked_though_some_fail(rt: HostRuntime) -> Result<(), Fail> {
    // a asks for b and c, c and d for e, e for d, f for b and fails; a to f are 0 to 5
    let alloc = rt.alloc();
    let questions = [[1, 2].as_slice(), &[], &[4], &[4], &[3], &[1]];
    let mut bodies = Vec::new(alloc);
    for (task, asked) in questions.iter().enumerate() {
        let ending = if task == 5 {
            Ending::Fail(7)
        } else {
            Ending::Sum
        };
        let questions = Vec::from_slice(alloc, asked)?;
        bodies.push(Body { questions, ending })?;
    }
    let Some(graph) = Graph::new(bodies) else {
        return Err(Fail::new("no graph"));
    };
    let Some(checked) = check_alone(alloc, &graph, &[0, 1, 2, 3, 4, 5])? else {
        return Err(Fail::new("no tasks"));
    };
    assert_eq!(rt; checked.defined.as_slice(), [1].as_slice());
    assert_eq!(rt; checked.failed.len(), 5);
    for (place, task) in [0, 2, 3, 4].iter().enumerate() {
        assert_eq!(rt; checked.failed[place].0, *task);
        assert!(rt; is_circle(&checked.failed[place].1, &[3, 4]));
    }
    assert_eq!(rt; checked.failed[4].0, 5);
    assert!(rt; matches!(checked.failed[4].1, Failure::Raised(7)));
    Ok(())
}
