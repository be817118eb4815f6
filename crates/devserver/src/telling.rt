//! What the program tells on standard error.

use outside::CONFIGURATION_PATH;
use outside_real::FolderTree;
use ruby_types::{Text, TextList};
use std::rt::Files;
use std::{fs, io};
use top_calls::{Outcome, Unbuilt};

/// The text, which is UTF-8 where it is a word of the command line or a path of the folder.
fn shown(text: &Text) -> &str {
    std::str::from_utf8(text.as_bytes()).unwrap_or("?")
}

/// The word of this place, or nothing.
fn word(words: &TextList, place: usize) -> &str {
    match words.as_slice().get(place) {
        Some(word) => shown(word),
        None => "",
    }
}

/// Tells what is not built yet.
fn tell_unbuilt<R: Eprint>(rt: &R, words: &TextList, what: &Unbuilt) -> io::Result<()> {
    match what {
        Unbuilt::Command => eprintln!(rt;
            "devserver: not built yet: the command {}",
            word(words, 0)
        ),
        Unbuilt::Target => eprintln!(rt;
            "devserver: not built yet: the target {}; targets are /CONTROLLER/ACTION today, both of letters a to z",
            word(words, 1)
        ),
        Unbuilt::Size => eprintln!(rt;
            "devserver: not built yet: an application beyond a limit, which `devserver tree` tells"
        ),
        Unbuilt::File(path) => if path.as_bytes() == CONFIGURATION_PATH.as_bytes() {
            eprintln!(rt; "devserver: not built yet: the configuration config/loader.conf")
        } else {
            eprintln!(rt;
                "devserver: not built yet: the file {}; `get` reads controllers with one action whose body is one text",
                shown(path)
            )
        },
    }
}

fn is_folder<R: Files>(rt: &R, path: &str) -> bool {
    match fs::metadata(rt, path) {
        Ok(meta) => meta.is_dir(),
        Err(_) => false,
    }
}

/// Tells where the current folder is no application's: it has no files to read.
pub fn tell_folder<R: Files + Eprint>(rt: &R) -> io::Result<()> {
    if is_folder(rt, "app") || is_folder(rt, "lib") {
        Ok(())
    } else {
        eprintln!(rt;
            "devserver: neither app/ nor lib/ is in this folder, so the application has no files"
        )
    }
}

/// Tells that the files could not be read, with the path and the system's reason.
fn tell_unread<R: Files + Eprint + AllocGlobal + Clone + Drop>(
    rt: &R,
    tree: &FolderTree<R>,
) -> io::Result<()> {
    match tree.last_fault() {
        Some(fault) => {
            eprintln!(rt; "devserver: the application's files could not be read: {fault}")
        }
        None => eprintln!(rt; "devserver: the application's files could not be read"),
    }
}

/// Tells how a command ended, where its output doesn't.
pub fn tell<R: Files + Eprint + AllocGlobal + Clone + Drop>(
    rt: &R,
    words: &TextList,
    tree: &FolderTree<R>,
    outcome: &Outcome,
) -> io::Result<()> {
    match outcome {
        Outcome::Done | Outcome::Negative => tell_folder(rt),
        Outcome::FaultyWords => tell_faulty_words(rt),
        Outcome::FilesUnread => tell_unread(rt, tree),
        Outcome::WriteFault => eprintln!(rt; "devserver: the output could not be written"),
        Outcome::Memory => eprintln!(rt; "devserver: out of memory"),
        Outcome::Refused => eprintln!(rt;
            "devserver: the application is refused: a limit, its configuration or a name (told on standard output)"
        ),
        Outcome::NotBuilt(what) => tell_unbuilt(rt, words, what),
    }
}

/// Tells that the command line has no command of this program.
pub fn tell_faulty_words<R: Eprint>(rt: &R) -> io::Result<()> {
    eprintln!(rt;
        "devserver: faulty command line; usage: devserver get TARGET, devserver tree (see devserver --help)"
    )
}
