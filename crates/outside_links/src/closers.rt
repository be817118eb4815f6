ghost use Rattle.std.specs.Prelude.{◌≡◌, ◌<◌, ◌+◌, ◌-◌, ◌^◌, ℕ, [], List, Option, None, slice_get, length, IfOk};
ghost use Rattle.std.specs.Prelude.{IfSome};
ghost use Rattle.std.specs.Option.{option_map};
ghost use Rattle.outside_links.specs.CloserState.{TellsMore, all_kept, all_told, with_link};

use crate::links::Link;
use std::alloc::{AllocError, Global};
use std::marker::Model;

/// Where links go in the end.
pub trait Closer<L: Link>: Send + Drop {
    /// How many links it got.
    ghost count: { Self → ℕ };

    /// The links that it got, where it tells them.
    ghost told: { Self → Option (List L) };

    /// Takes a link for good. It takes no memory.
    fn close(&mut self, link: L)
        requires { count self.old < 2 ^ 64 - 1 }
        ensures count { count self.new ≡ count self.old + 1 }
        ensures told { TellsMore link (told self.old) (told self.new) };

    /// It tells as many links as it got.
    ghost tells_all: { (closer : Self) → IfSome (told closer) (λ links. length links ≡ count closer) };
}

/// A closer that drops each link, which closes it, and tells nothing.
#[derive(Drop)]
pub struct DropCloser {
    count: u64,
}

impl Model for DropCloser {
    ghost use Rattle.std.specs.Prelude.{ℕ};

    ghost Value = { ℕ };

    ghost view = { λ closer. closer.count };
}

impl DropCloser {
    /// A closer that got no link yet.
    pub fn new() -> DropCloser
        ensures { result ≡ 0 }
    {
        DropCloser { count: 0 }
    }
}

impl<L: Link> Closer<L> for DropCloser {
    ghost count = { λ closer. closer };

    ghost told = { λ _. None };

    fn close(&mut self, link: L) {
        self.count += 1;
        drop(link);
    }

    ghost tells_all = { λ _. tt };
}

/// A closer that keeps the first links that it gets, as many as it has room for, and tells its list as long as it has
/// kept all.
#[derive(Drop)]
pub struct KeepCloser<L> {
    kept: Vec<L>,
    room: usize,
    count: u64,
}

impl<L> Model for KeepCloser<L> {
    ghost use Rattle.outside_links.specs.CloserState.{KeptLinks};

    ghost Value = { KeptLinks L };

    ghost use Rattle.std.specs.Prelude.{◌≤◌, length, vec_capacity};

    ghost view = { λ closer. record { kept = closer.kept.items; room = closer.room; count = closer.count } };

    ghost invariant = { λ closer. (closer.room ≤ vec_capacity closer.kept)
        × (length closer.kept.items ≤ closer.count) };
}

impl<L: Drop> KeepCloser<L> {
    /// A closer that got no link yet, with room for this many, which is taken at once.
    /// An error where memory runs out.
    pub fn new(alloc: Global, room: u32) -> Result<KeepCloser<L>, AllocError>
        ensures { IfOk result (λ closer. closer ≡ record { kept = []; room = room; count = 0 }) }
    {
        let room = room as usize;
        Ok(KeepCloser {
            kept: Vec::with_capacity(alloc, room)?,
            room,
            count: 0,
        })
    }

    /// The kept link at this place, in the order in which they came.
    pub fn link(&self, place: u32) -> Option<&L>
        ensures { option_map (λ link. link.now) result ≡ slice_get self.now.kept place }
    {
        self.kept.get(place as usize)
    }
}

impl<L: Link> Closer<L> for KeepCloser<L> {
    ghost count = { λ closer. closer.count };

    ghost told = { all_kept };

    fn close(&mut self, link: L)
        requires { self.old.count < 2 ^ 64 - 1 }
        ensures count { self.new.count ≡ self.old.count + 1 }
        ensures told { TellsMore link (all_kept self.old) (all_kept self.new) }
        ensures kept { self.new ≡ with_link link self.old }
    {
        self.count += 1;
        if self.kept.len() < self.room {
            let _ = self.kept.push(link);
        } else {
            drop(link);
        }
    }

    ghost tells_all = { λ closer. all_told closer };
}
