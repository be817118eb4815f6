//! The program: a command over the application's folder, which is the current folder, and standard output.
#![tactic(auto)]

mod script;
mod telling;
mod usage;

use crate::script::NoScript;
use crate::telling::{tell, tell_faulty_words};
use crate::usage::{USAGE, VERSION};
use outside_real::{FolderTree, StdoutSink};
use ruby_types::{Text, TextList};
use std::process::ExitCode;
use std::rt::{Env, Files};
use std::{env, io, thread};
use top_calls::run_once;

/// The stack on which a command runs. A file that is read may be a chain of a million operators with a fault behind it,
/// whose part that was read is dropped by calls, one in another.
const STACK_BYTES: usize = 1 << 30;

const FAULTY_WORDS: u8 = 2;

const WRITE_FAULT: u8 = 4;

const OUT_OF_MEMORY: u8 = 5;

/// The command line's words without the program's name.
fn read_words<R: Env + AllocGlobal>(rt: &R) -> io::Result<TextList> {
    let mut words = TextList::new(rt.alloc());
    for word in env::args(rt)?.skip(1) {
        words.push(Text::from_bytes(rt.alloc(), word.as_bytes())?)?;
    }
    Ok(words)
}

/// Prints a text on standard output: the exit status.
fn show<R: Print + Eprint>(rt: &R, text: &str) -> u8 {
    match rt.print(text) {
        Ok(()) => 0,
        Err(_) => {
            let _ = rt.eprintln("devserver: the output could not be written");
            WRITE_FAULT
        }
    }
}

/// Runs the command over the current folder: the exit status.
fn run_command<R: Files + Print + Eprint + AllocGlobal + Clone + Drop>(
    rt: &R,
    words: &TextList,
) -> io::Result<u8> {
    let mut tree = FolderTree::new(rt.clone()?);
    let mut out = StdoutSink::new(rt.clone()?);
    let outcome = run_once(rt.alloc(), words, &mut NoScript, &mut tree, &mut out);
    let _ = tell(rt, words, &tree, &outcome);
    Ok(outcome.code())
}

fn run_words<R: Files + Print + Eprint + AllocGlobal + Clone + Drop>(
    rt: &R,
    words: &TextList,
) -> io::Result<u8> {
    match words.as_slice() {
        [word] if word.as_bytes() == b"--help".as_slice() => Ok(show(rt, USAGE)),
        [word] if word.as_bytes() == b"--version".as_slice() => Ok(show(rt, VERSION)),
        _ => run_command(rt, words),
    }
}

/// Says that memory ran out: the exit status.
fn refuse_memory<R: Eprint>(rt: &R, what: &str) -> u8 {
    let _ = eprintln!(rt; "devserver: out of memory: {what}");
    OUT_OF_MEMORY
}

/// Reads the words and runs them: the exit status.
fn run<R: Env + Files + Print + Eprint + AllocGlobal + Clone + Drop>(rt: &R) -> u8 {
    match read_words(rt) {
        Ok(words) => match run_words(rt, &words) {
            Ok(status) => status,
            Err(_) => refuse_memory(rt, "the command was not run"),
        },
        Err(error) => if error.kind() == io::ErrorKind::OutOfMemory {
            refuse_memory(rt, "the command line could not be read")
        } else {
            let _ = tell_faulty_words(rt);
            FAULTY_WORDS
        },
    }
}

/// Runs the words on a thread with a large stack. Without room for one nothing is run: a file within the limits could
/// end the program's own stack.
fn main(rt: HostRuntime) -> ExitCode {
    let deep = thread::Builder::new().stack_size(STACK_BYTES);
    let status = match rt.clone() {
        Ok(inner) => match deep.spawn(&rt, move || run(&inner)) {
            Ok(child) => child.join(&rt),
            Err(_) => refuse_memory(&rt, "no thread with a stack of 1 GiB could be started"),
        },
        Err(_) => refuse_memory(&rt, "no thread could be started"),
    };
    ExitCode::from(status)
}
