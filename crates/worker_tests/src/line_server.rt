//! One who serves heads of two bytes, each a letter and a line end, up to a limit.
ghost use Rattle.std.specs.Prelude.{◌≡◌, [], ◌∷◌, cond, None, IfOk};
ghost use Rattle.connection_items.specs.Exchanges.{Standing};
ghost use Rattle.connection_items.specs.Rules.{Reads};
ghost use Rattle.worker.specs.Serves.{Takes, Enters, IsDroppedHead};
ghost use Rattle.worker_tests.specs.Line.{line_rules, manner_of, standing_of, response_of, refusal_of, line_lawful};

use connection_items::{Manner, Reading, Unreadable};
use lists::{Listed, Text};
use outside_links::{Gate, Point};
use std::alloc::{AllocError, Global};
use std::sync::Wait;
use worker::{Entered, ServesHeads, Taken};

/// Each letter is answered by itself. C asks to close, B announces a body, H wants no body in its response. It goes
/// through a gate before and after each.
#[derive(Drop)]
pub struct LineServer<G> {
    items: Listed<u8>,
    limit: usize,
    gate: G,
}

impl<G: Gate> LineServer<G> {
    /// A server that has served nothing, and serves as many heads as the limit says.
    pub fn new(alloc: Global, limit: usize, gate: G) -> LineServer<G> {
        LineServer {
            items: Listed::new(alloc),
            limit,
            gate,
        }
    }

    /// The letters that were served, in order.
    pub fn items(&self) -> &[u8] {
        self.items.as_slice()
    }
}

/// A text of two bytes, or of the first alone.
fn text_of(alloc: Global, first: u8, second: u8, alone: bool) -> Result<Text, AllocError>
    ensures { IfOk result (λ text. text ≡ first ∷ cond alone [] (second ∷ [])) }
{
    if alone {
        Text::from_bytes(alloc, &[first])
    } else {
        Text::from_bytes(alloc, &[first, second])
    }
}

impl<G: Gate> ServesHeads for LineServer<G> {
    type Parts = u8;

    type Item = u8;

    type Entry = u8;

    type Hooks = u8;

    type Receipt = u8;

    type Limit = u8;

    type Ready = u8;

    ghost rules = { line_rules };

    ghost standing = { λ server. standing_of server.items };

    ghost is_at_rest = { λ _. Unit {0} };

    ghost item_of = { λ ready. ready };

    ghost is_ready = { λ before parts ready server. (before ≡ standing_of server.items) × (ready ≡ parts) };

    fn read_head(&self, _alloc: Global, bytes: &[u8]) -> Reading<u8>
        ensures { Reads line_rules result bytes.now }
    {
        if bytes.len() < 2 {
            return Reading::More;
        }
        match bytes[1] {
            b'\n' => Reading::Whole(2, bytes[0]),
            b'l' => Reading::Long,
            b'm' => Reading::Many,
            _ => Reading::Bad,
        }
    }

    fn manner(&self, parts: &u8) -> Manner
        ensures { result ≡ manner_of parts.now }
    {
        Manner {
            close: *parts == b'C',
            body: *parts == b'B',
            head_only: *parts == b'H',
        }
    }

    fn take<R: Wait>(&mut self, _rt: &R, _alloc: Global, parts: &u8) -> Taken<u8, u8> {
        if self.items.len() >= self.limit {
            Taken::Full(b'7')
        } else {
            self.gate.at(Point::Begun);
            Taken::Ready(*parts)
        }
    }

    fn print(
        &self,
        alloc: Global,
        ready: &u8,
        closes: bool,
        head_only: bool,
    ) -> Result<Text, AllocError>
        ensures { IfOk result (λ text. text ≡ response_of ready.now closes head_only) }
    {
        text_of(alloc, if closes { b'c' } else { b'-' }, *ready, head_only)
    }

    fn enter<R: Wait>(&mut self, _rt: &R, ready: u8) -> Entered<u8, u8> {
        match self.items.push(ready) {
            Ok(()) => Entered::Done(Some(ready)),
            Err(_) => Entered::Memory,
        }
    }

    fn abandon<R: Wait>(&mut self, _rt: &R, _ready: u8) {}

    fn print_limit(&self, alloc: Global, limit: &u8, head_only: bool) -> Result<Text, AllocError> {
        text_of(alloc, b'f', *limit, head_only)
    }

    fn print_refusal(&self, alloc: Global, why: Unreadable) -> Result<Text, AllocError>
        ensures { IfOk result (λ text. text ≡ refusal_of why) }
    {
        let letter = match why {
            Unreadable::Bad => b'b',
            Unreadable::Long => b'l',
            Unreadable::Many => b'm',
        };
        text_of(alloc, letter, letter, true)
    }

    fn answered(&mut self) {
        self.gate.at(Point::Answered);
    }

    ghost lawful = { line_lawful };
}
