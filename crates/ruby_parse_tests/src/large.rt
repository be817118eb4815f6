//! Long files and long chains: they are read in one pass, and their trees are dropped without ending the program.

use ruby_parse::{SyntaxFault, SyntaxKind, parse};
use std::alloc::{AllocError, Global};
use std::test::Fail;
use std::thread;

/// A text between so many beginnings and as many endings.
pub fn repeated(
    alloc: Global,
    start: &str,
    beginning: &str,
    count: usize,
    middle: &str,
    ending: &str,
) -> Result<String, AllocError> {
    let mut text = String::from_str(alloc, start)?;
    for _ in 0..count {
        text.push_str(beginning)?;
    }
    text.push_str(middle)?;
    for _ in 0..count {
        text.push_str(ending)?;
    }
    Ok(text)
}

static WANT: SyntaxFault = SyntaxFault {
    at: 0,
    kind: SyntaxKind::Memory,
};

/// The fault of a text, whose tree is dropped here if it has one.
fn fault_of(alloc: Global, text: &str) -> Option<SyntaxFault> {
    if text.len() < 100_000_000 {
        parse(alloc, text.as_bytes()).err()
    } else {
        Some(WANT)
    }
}

/// Whether a text so made is a file.
fn is_file(
    alloc: Global,
    start: &str,
    beginning: &str,
    count: usize,
    middle: &str,
    ending: &str,
) -> bool {
    match repeated(alloc, start, beginning, count, middle, ending) {
        Ok(text) => fault_of(alloc, text.as_str()).is_none(),
        Err(_) => false,
    }
}

fn chains(alloc: Global) -> [bool; 6] {
    [
        is_file(alloc, "X = ", "1 + ", 1_000_000, "1", ""),
        is_file(alloc, "X = ", "A * ", 1_000_000, "A", ""),
        is_file(alloc, "X = ", "A < ", 1_000_000, "A", ""),
        is_file(alloc, "X = ", "A || ", 1_000_000, "A", ""),
        is_file(alloc, "X = ", "A && ", 1_000_000, "A", ""),
        is_file(alloc, "X = A", "::A", 1_000_000, "", ""),
    ]
}

#[test]
fn chains_of_a_million_operators_are_read_and_dropped(rt: HostRuntime) -> Result<(), Fail> {
    let alloc = rt.alloc();
    let deep = thread::Builder::new().stack_size(1 << 30);
    let read = deep.spawn(&rt, move || chains(alloc))?.join(&rt);
    assert_eq!(rt; read, [true; 6]);
    Ok(())
}

fn calls(alloc: Global) -> [bool; 3] {
    [
        is_file(alloc, "X = a", ".b", 1_000_000, "", ""),
        is_file(alloc, "X = A", "[0]", 1_000_000, "", ""),
        is_file(alloc, "X = A", ".b(1)[2]", 500_000, "", ""),
    ]
}

#[test]
fn chains_of_a_million_calls_are_read_and_dropped(rt: HostRuntime) -> Result<(), Fail> {
    let alloc = rt.alloc();
    let deep = thread::Builder::new().stack_size(1 << 30);
    let read = deep.spawn(&rt, move || calls(alloc))?.join(&rt);
    assert_eq!(rt; read, [true; 3]);
    Ok(())
}

fn choices(alloc: Global) -> [bool; 2] {
    [
        is_file(alloc, "X = ", "x ? 1 : ", 1_000_000, "2", ""),
        is_file(alloc, "X = ", "x ? ", 1_000_000, "1", " : 2"),
    ]
}

#[test]
fn choices_in_choices_are_read_and_dropped(rt: HostRuntime) -> Result<(), Fail> {
    let alloc = rt.alloc();
    let deep = thread::Builder::new().stack_size(1 << 30);
    let read = deep.spawn(&rt, move || choices(alloc))?.join(&rt);
    assert_eq!(rt; read, [true; 2]);
    Ok(())
}

/// The fault of a text that repeats an opening a million times.
fn opened(alloc: Global, opening: &str) -> Option<SyntaxFault> {
    match repeated(alloc, "X = ", opening, 1_000_000, "", "") {
        Ok(text) => fault_of(alloc, text.as_str()),
        Err(_) => Some(WANT),
    }
}

#[test]
fn a_million_openings_are_too_deep_at_the_next_level(rt: HostRuntime) {
    let alloc = rt.alloc();
    for (opening, at) in [
        ("(", 104),
        ("[", 104),
        ("!", 104),
        ("{a: ", 404),
        ("f(", 205),
    ] {
        assert_eq!(rt;
            opened(alloc, opening),
            Some(SyntaxFault {
                at,
                kind: SyntaxKind::TooDeep
            }),
            "many {opening}"
        );
    }
    assert_eq!(rt;
        opened(alloc, "\"#{"),
        Some(SyntaxFault {
            at: 4,
            kind: SyntaxKind::Lex
        })
    );
}

#[test]
fn long_lists_are_read_in_one_pass(rt: HostRuntime) {
    let alloc = rt.alloc();
    assert!(rt; is_file(alloc, "X = [", "a, ", 500_000, "]", ""), "members");
    assert!(rt;
        is_file(alloc, "X = {", "a: 1, ", 300_000, "}", ""),
        "pairs"
    );
    assert!(rt;
        is_file(alloc, "X = f(", "1, ", 500_000, ")", ""),
        "arguments"
    );
    assert!(rt;
        is_file(alloc, "X = \"", "a#{b}", 300_000, "\"", ""),
        "parts"
    );
    assert!(rt;
        is_file(alloc, "X = \"", "a\\n", 2_000_000, "\"", ""),
        "a piece"
    );
}

#[test]
fn long_bodies_are_read_in_one_pass(rt: HostRuntime) {
    let alloc = rt.alloc();
    let start = "class A\ndef f\n";
    let end = "end\nend\n";
    assert!(rt;
        is_file(alloc, start, "a = a\n", 300_000, end, ""),
        "assignments"
    );
    assert!(rt;
        is_file(alloc, start, "b if a\n", 300_000, end, ""),
        "statements"
    );
    assert!(rt;
        is_file(alloc, "class A\n", "include B\n", 300_000, "end", ""),
        "includes"
    );
    assert!(rt;
        is_file(alloc, "", "class A\nend\n", 300_000, "", ""),
        "openings"
    );
    let arms = "class A\ndef f\nif a\n";
    assert!(rt;
        is_file(alloc, arms, "elsif a\nb\n", 300_000, "end\nend\nend", ""),
        "arms"
    );
}

/// A text of numbered lines.
fn numbered(
    alloc: Global,
    start: &str,
    before: &str,
    behind: &str,
    count: u32,
    end: &str,
) -> Result<String, AllocError> {
    let mut text = String::from_str(alloc, start)?;
    for number in 0..count {
        let digits = format!(in alloc; "{number}")?;
        text.push_str(before)?;
        text.push_str(digits.as_str())?;
        text.push_str(behind)?;
    }
    text.push_str(end)?;
    Ok(text)
}

#[test]
fn many_names_are_told_apart_in_one_pass(rt: HostRuntime) -> Result<(), Fail> {
    let alloc = rt.alloc();
    let constants = numbered(alloc, "", "X", " = 1\n", 200_000, "")?;
    assert_eq!(rt; fault_of(alloc, constants.as_str()), None, "constants");
    let methods = numbered(alloc, "class A\n", "def f", "\nend\n", 200_000, "end")?;
    assert_eq!(rt; fault_of(alloc, methods.as_str()), None, "methods");
    let readers = numbered(
        alloc,
        "class A\nattr_reader :a",
        ", :b",
        "",
        200_000,
        "\nend",
    )?;
    assert_eq!(rt; fault_of(alloc, readers.as_str()), None, "readers");
    let variables = numbered(
        alloc,
        "class A\ndef f\n",
        "a",
        " = a0\n",
        200_000,
        "end\nend",
    )?;
    assert_eq!(rt; fault_of(alloc, variables.as_str()), None, "variables");
    let parameters = numbered(alloc, "class A\ndef f(a", ", b", "", 200_000, ")\nend\nend")?;
    assert_eq!(rt; fault_of(alloc, parameters.as_str()), None, "parameters");
    Ok(())
}
