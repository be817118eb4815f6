//! The names of tasks, byte by byte.
ghost use Rattle.std.specs.Prelude.{◌≡◌, ◌<◌, ◌∷◌, ◌++◌, [], MatchOption};
ghost use Rattle.outside.specs.Order.{order};
ghost use Rattle.task_keys.specs.Bytes.{bytes_left, pieces_left};
ghost use Rattle.task_keys.specs.Names.{task_name};
ghost use Rattle.ruby_types.specs.Paths.{path_text};

use ruby_types::{Task, Text};
use std::cmp::Ordering;

/// What is left of a name: a piece, what comes behind it, and the names after that, with `::` before each.
#[derive(Clone, Copy)]
pub(crate) struct NameBytes<'a> {
    piece: &'a [u8],
    behind: &'a [u8],
    names: &'a [Text],
}

impl<'a> NameBytes<'a> {
    /// A word and the path behind it.
    #[tactic(auto, using(crate::proofs::Texts::first_name_first))]
    fn of_path(word: &'a [u8], path: &'a [Text]) -> Self
        ensures { bytes_left result ≡ word.now ++ path_text path.now }
    {
        match path.split_first() {
            Some((name, names)) => NameBytes {
                piece: word,
                behind: name.as_bytes(),
                names,
            },
            None => NameBytes {
                piece: word,
                behind: b"",
                names: path,
            },
        }
    }

    /// The name of a task.
    fn of(task: &'a Task) -> Self
        ensures { bytes_left result ≡ task_name task.now }
    {
        match task {
            Task::File(file) => NameBytes::of_path(file.as_bytes(), &[]),
            Task::Const(path) => NameBytes::of_path(b"", path.as_slice()),
            Task::Ancestors(path) => NameBytes::of_path(b"ancestors of ", path.as_slice()),
            Task::Request(_) => NameBytes::of_path(b"", &[]),
        }
    }

    /// The next piece in the place of an empty one.
    fn next_piece(self) -> Option<Self>
        requires { self.piece.now ≡ [] }
        ensures { MatchOption result (bytes_left self.entry ≡ [])
            (λ next. (bytes_left next ≡ bytes_left self.entry) × (pieces_left next < pieces_left self.entry)) }
    {
        if !self.behind.is_empty() {
            return Some(NameBytes {
                piece: self.behind,
                behind: b"",
                names: self.names,
            });
        }
        match self.names {
            [name, names @ ..] => Some(NameBytes {
                piece: b"::",
                behind: name.as_bytes(),
                names,
            }),
            [] => None,
        }
    }

    /// The next byte, and what is left behind it.
    fn next(self) -> Option<(u8, Self)>
        ensures { MatchOption result (bytes_left self.entry ≡ [])
            (λ next. bytes_left self.entry ≡ next.0 ∷ bytes_left next.1) }
    {
        let mut left = self;
        'pieces: loop {
            if let [byte, piece @ ..] = left.piece {
                return Some((
                    *byte,
                    NameBytes {
                        piece,
                        behind: left.behind,
                        names: left.names,
                    },
                ));
            }
            left = left.next_piece()?;
        }
    }
}

/// The order of the names of two tasks, by their bytes.
pub(crate) fn compare_task_names(a: &Task, b: &Task) -> Ordering
    ensures { result ≡ order (task_name a.now) (task_name b.now) }
{
    let mut left = NameBytes::of(a);
    let mut right = NameBytes::of(b);
    'bytes: while let Some((byte, behind)) = left.next() {
        let Some((other, after)) = right.next() else {
            return Ordering::Greater;
        };
        match byte.cmp(&other) {
            Ordering::Equal => {
                left = behind;
                right = after;
            }
            Ordering::Less => return Ordering::Less,
            Ordering::Greater => return Ordering::Greater,
        }
    }
    if right.next().is_none() {
        Ordering::Equal
    } else {
        Ordering::Less
    }
}
