ghost use Rattle.std.specs.Prelude.{◌≡◌, ◌-◌, ◌≤◌, ◌<◌, [], length, take, drop, IfOk, IfSome};
ghost use Rattle.outside.specs.Faults.{Counts};
ghost use Rattle.outside.specs.ReadAns.{read_failed, FitsRoom, Takes, EndsWhereNothingIsLeft};
ghost use Rattle.outside_links.specs.Reading.{Reads};
ghost use Rattle.connection_window.specs.Fills.{window, fill_failed, Fills};

use outside::ReadAns;
use outside_links::Link;
use std::alloc::{AllocError, Global};
use std::marker::Model;

/// The bytes of the place in which a window lies: twice the longest head of a request.
const ROOM: usize = 32_768;

/// How a window was filled.
#[derive(Clone, Copy, Debug, PartialEq, Eq)]
pub enum Filled {
    /// A piece of at least one byte came in.
    Got,
    /// The input has ended.
    End,
    /// The read failed.
    Failed,
}

/// Makes room behind the bytes from one place up to another, and says where they stand then.
fn make_room(bytes: &mut [u8], from: usize, to: usize) -> (usize, usize)
    requires { (from ≤ to) × (to ≤ 32768) × (length bytes.old ≡ 32768) × (to - from < 16384) }
    ensures same { window bytes.new result.0 result.1 ≡ window bytes.old from to }
    ensures room { (result.0 ≤ result.1) × (result.1 < 32768) }
{
    if from == to {
        return (0, 0);
    }
    if to < ROOM {
        return (from, to);
    }
    bytes.copy_within(from..to, 0);
    (0, to - from)
}

/// Reads a piece to a place of the slice.
fn read_behind<L: Link>(bytes: &mut [u8], to: usize, link: &mut L) -> ReadAns
    requires { to < length bytes.old }
    ensures kept { take to bytes.new ≡ take to bytes.old }
    ensures piece { FitsRoom result (length bytes.old - to) }
    ensures bytes { Takes result (drop to bytes.new) (L.left link.old) (L.left link.new) }
    ensures told { Reads result (drop to bytes.new) (L.was_read link.old) (L.was_read link.new) }
    ensures end { IfSome (L.left link.old) (EndsWhereNothingIsLeft result) }
    ensures faults { Counts (read_failed result) (L.read_faults link.old) (L.read_faults link.new) }
    ensures written { L.was_written link.new ≡ L.was_written link.old }
    ensures write_faults { L.write_faults link.new ≡ L.write_faults link.old }
{
    link.read(&mut bytes[to..])
}

/// The bytes that came in and were not used up.
#[derive(Drop)]
pub struct Window {
    bytes: Vec<u8>,
    from: usize,
    to: usize,
}

impl Model for Window {
    ghost use Rattle.connection_window.specs.Fills.{window};
    ghost use Rattle.std.specs.Prelude.{ℕ, List, ◌≡◌, ◌≤◌, length};

    ghost Value = { List ℕ };

    ghost view = { λ w. window w.bytes.items w.from w.to };

    ghost invariant = { λ w. (w.from ≤ w.to) × (w.to ≤ 32768) × (length w.bytes.items ≡ 32768) };
}

impl Window {
    /// A window without a byte, whose place is taken at once; an error where memory runs out.
    pub fn new(alloc: Global) -> Result<Window, AllocError>
        ensures { IfOk result (λ w. w ≡ []) }
    {
        let bytes = Vec::from_elem(alloc, 0, ROOM)?;
        Ok(Window {
            bytes,
            from: 0,
            to: 0,
        })
    }

    /// The bytes, at most 32,768.
    pub fn bytes(&self) -> &[u8]
        ensures same { result.now ≡ self.now }
        ensures bounded { length self.now ≤ 32768 }
    {
        &self.bytes[self.from..self.to]
    }

    /// Uses up the first bytes, as many as the count says.
    pub fn use_up(&mut self, count: usize)
        requires { count ≤ length self.old }
        ensures { self.new ≡ drop count self.old }
    {
        self.from += count;
    }

    /// Reads a piece behind the bytes that are there, which are fewer than 16,384.
    pub fn fill<L: Link>(&mut self, link: &mut L) -> Filled
        requires { length self.old < 16384 }
        ensures bytes { Fills result self.old self.new (L.left link.old) (L.left link.new)
            (L.was_read link.old) (L.was_read link.new) }
        ensures faults { Counts (fill_failed result) (L.read_faults link.old) (L.read_faults link.new) }
        ensures written { L.was_written link.new ≡ L.was_written link.old }
        ensures write_faults { L.write_faults link.new ≡ L.write_faults link.old }
    {
        let (from, to) = make_room(&mut self.bytes, self.from, self.to);
        self.from = from;
        self.to = to;
        match read_behind(&mut self.bytes, to, link) {
            ReadAns::Got(count) => {
                self.to += count;
                Filled::Got
            }
            ReadAns::End => Filled::End,
            ReadAns::Failed => Filled::Failed,
        }
    }
}
