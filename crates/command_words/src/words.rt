ghost use Rattle.std.specs.Prelude.{◌≡◌, ◌↔◌, IsTrue, codes};
ghost use Rattle.command_words.specs.Words.{name_of};
ghost use Rattle.command_words.specs.Command.{Finds, FindsConnections, FindsArguments};

use ruby_types::{Text, TextList};
use word_forms::{is_target, number_of};

/// The first words of command lines.
#[derive(Clone, Copy, Debug, PartialEq, Eq)]
pub enum CommandName {
    Get,
    Check,
    Tree,
    Replay,
    Demo,
    Serve,
}

/// A command with its arguments.
#[derive(Clone, Copy)]
pub enum Command<'a> {
    /// A request for this target.
    Get(&'a [u8]),
    Check,
    CheckEager,
    Tree,
    Replay,
    /// A script that the program makes, of this number.
    Demo(u32),
    Serve {
        address: &'a [u8],
        workers: u32,
        /// How many connections are served; with None there is no end.
        connections: Option<u32>,
    },
}

fn command_name(word: &[u8]) -> Option<CommandName>
    ensures { result ≡ name_of word.now }
{
    if word == b"get".as_slice() {
        Some(CommandName::Get)
    } else if word == b"check".as_slice() {
        Some(CommandName::Check)
    } else if word == b"tree".as_slice() {
        Some(CommandName::Tree)
    } else if word == b"replay".as_slice() {
        Some(CommandName::Replay)
    } else if word == b"demo".as_slice() {
        Some(CommandName::Demo)
    } else if word == b"serve".as_slice() {
        Some(CommandName::Serve)
    } else {
        None
    }
}

/// How many connections the words give: none, or one number of them.
fn read_connections(words: &[Text]) -> Option<Option<u32>>
    ensures { FindsConnections result words.now }
{
    match words {
        [] => Some(None),
        [number] => match number_of(number.as_bytes(), 1_000_000) {
            Some(number) => Some(Some(number)),
            None => None,
        },
        _ => None,
    }
}

/// `get TARGET`.
fn read_get(arguments: &[Text]) -> Option<Command<'_>>
    ensures { FindsArguments CommandName.Get result arguments.now }
{
    match arguments {
        [target] => if is_target(target.as_bytes()) {
            Some(Command::Get(target.as_bytes()))
        } else {
            None
        },
        _ => None,
    }
}

fn is_eager(word: &[u8]) -> bool
    ensures { IsTrue result ↔ (word.now ≡ codes "eager") }
{
    word == b"eager".as_slice()
}

/// `check` and `check eager`.
fn read_check(arguments: &[Text]) -> Option<Command<'_>>
    ensures { FindsArguments CommandName.Check result arguments.now }
{
    match arguments {
        [] => Some(Command::Check),
        [word] => if is_eager(word.as_bytes()) {
            Some(Command::CheckEager)
        } else {
            None
        },
        _ => None,
    }
}

/// `tree`.
fn read_tree(arguments: &[Text]) -> Option<Command<'_>>
    ensures { FindsArguments CommandName.Tree result arguments.now }
{
    if arguments.is_empty() {
        Some(Command::Tree)
    } else {
        None
    }
}

/// `replay`.
fn read_replay(arguments: &[Text]) -> Option<Command<'_>>
    ensures { FindsArguments CommandName.Replay result arguments.now }
{
    if arguments.is_empty() {
        Some(Command::Replay)
    } else {
        None
    }
}

/// `demo N`, N being at most 1,000.
fn read_demo(arguments: &[Text]) -> Option<Command<'_>>
    ensures { FindsArguments CommandName.Demo result arguments.now }
{
    match arguments {
        [number] => match number_of(number.as_bytes(), 1_000) {
            Some(number) => Some(Command::Demo(number)),
            None => None,
        },
        _ => None,
    }
}

/// `serve ADDRESS WORKERS` and `serve ADDRESS WORKERS CONNECTIONS`, with at most 16 workers.
fn read_serve(arguments: &[Text]) -> Option<Command<'_>>
    ensures { FindsArguments CommandName.Serve result arguments.now }
{
    match arguments {
        [address, workers, connections @ ..] => {
            let workers = number_of(workers.as_bytes(), 16)?;
            let connections = read_connections(connections)?;
            let address = address.as_bytes();
            if address.is_empty() {
                None
            } else {
                Some(Command::Serve {
                    address,
                    workers,
                    connections,
                })
            }
        }
        _ => None,
    }
}

/// The command of this name with these arguments.
fn read_arguments(name: CommandName, arguments: &[Text]) -> Option<Command<'_>>
    ensures { FindsArguments name result arguments.now }
{
    match name {
        CommandName::Get => read_get(arguments),
        CommandName::Check => read_check(arguments),
        CommandName::Tree => read_tree(arguments),
        CommandName::Replay => read_replay(arguments),
        CommandName::Demo => read_demo(arguments),
        CommandName::Serve => read_serve(arguments),
    }
}

/// The command that the words spell, or None where they are no command line. It takes no memory.
pub fn parse_words(words: &TextList) -> Option<Command<'_>>
    ensures { Finds result words.now }
{
    let (first, arguments) = words.as_slice().split_first()?;
    match command_name(first.as_bytes()) {
        Some(name) => read_arguments(name, arguments),
        None => None,
    }
}
