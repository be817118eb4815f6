//! What a worker is over: what a head is, and how one is served.
ghost use Rattle.std.specs.Prelude.{◌≡◌, ◌≤◌, ℕ, List, None, Some, IfOk};
ghost use Rattle.connection_items.specs.Exchanges.{Standing};
ghost use Rattle.connection_items.specs.Rules.{Rules, IsLawful, Reads};
ghost use Rattle.worker.specs.Serves.{IfReady, IfNotReady, Takes, Enters, IsDroppedHead};
ghost use Rattle.connection_items.specs.declared.heads.Unreadable.{Unreadable};

use connection_items::{Manner, Reading, Unreadable};
use lists::Text;
use std::alloc::{AllocError, Global};
use std::sync::Wait;

/// How a head was taken.
#[derive(Drop)]
pub enum Taken<Y, F> {
    /// Its item is known, and isn't entered yet.
    Ready(Y),
    /// A limit was met.
    Full(F),
    Memory,
}

/// How an item was entered.
#[derive(Drop)]
pub enum Entered<R, F> {
    /// It was, and a reply has this receipt.
    Done(Option<R>),
    /// A limit was met.
    Full(F),
    Memory,
}

/// One who reads heads and serves them: a pass with its tree, its hooks and its gate.
///
/// A head is served in two calls. `take` does all up to its item: it shares, checks and reloads, begins the request and
/// makes its reply. `enter` puts the item into the history and ends the head. Between them the worker prints.
pub trait ServesHeads {
    /// What is read of a head.
    type Parts: Send + Drop;

    /// A request with its reply, or the cause of a refusal, each with the number of its generation.
    type Item;

    /// An entry of the history.
    type Entry;

    /// What the hooks keep.
    type Hooks;

    type Receipt: Send + Drop;

    /// A limit that is met.
    type Limit: Send + Drop;

    /// A head whose item is known and isn't entered yet.
    type Ready: Send + Drop;

    // Which heads bytes begin with, how responses are written, and what is promised of one head.
    ghost rules: { Rules Self.Parts Self.Item Self.Entry Self.Receipt Self.Hooks Self.Limit };

    // The pass, the tree and the hooks at one moment.
    ghost standing: { Self → Standing Self.Item Self.Entry Self.Hooks };

    // No head is being served.
    ghost is_at_rest: { Self → Type 0 };

    // The item that a head is to get.
    ghost item_of: { Self.Ready → Self.Item };

    // This head is being served since the pass stood so, and this is what it is to get.
    ghost is_ready: { Standing Self.Item Self.Entry Self.Hooks → Self.Parts → Self.Ready → Self → Type 0 };

    /// What the first bytes of an input are.
    fn read_head(&self, alloc: Global, bytes: &[u8]) -> Reading<Self::Parts>
        ensures { Reads rules result bytes.now };

    /// What a head says of its connection.
    fn manner(&self, parts: &Self::Parts) -> Manner
        ensures { result ≡ rules.manner parts.now };

    /// Everything for one head up to its item.
    fn take<R: Wait>(
        &mut self,
        rt: &R,
        alloc: Global,
        parts: &Self::Parts,
    ) -> Taken<Self::Ready, Self::Limit>
        requires { is_at_rest self.old }
        ensures ready { IfReady result (λ ready. is_ready (standing self.old) parts.now ready self.new) }
        ensures takes { Takes rules result parts.now (standing self.old) (standing self.new) }
        ensures rest { IfNotReady result (is_at_rest self.new) };

    /// The response of the item that a head is to get.
    fn print(
        &self,
        alloc: Global,
        ready: &Self::Ready,
        closes: bool,
        head_only: bool,
    ) -> Result<Text, AllocError>
        ensures { IfOk result (λ text. text ≡ rules.response (item_of ready.now) closes head_only) };

    /// Enters the item, and ends the head.
    fn enter<R: Wait>(&mut self, rt: &R, ready: Self::Ready) -> Entered<Self::Receipt, Self::Limit>
        requires { (before : Standing Self.Item Self.Entry Self.Hooks)
            × ((parts : Self.Parts) × is_ready before parts ready self.old) }
        ensures enters { (before : Standing Self.Item Self.Entry Self.Hooks) (parts : Self.Parts)
            → is_ready before parts ready self.old
            → Enters rules result parts (item_of ready) before (standing self.new) }
        ensures rest { is_at_rest self.new };

    /// Ends the head without an item. It takes no memory.
    fn abandon<R: Wait>(&mut self, rt: &R, ready: Self::Ready)
        requires { (before : Standing Self.Item Self.Entry Self.Hooks)
            × ((parts : Self.Parts) × is_ready before parts ready self.old) }
        ensures abandons { (before : Standing Self.Item Self.Entry Self.Hooks) (parts : Self.Parts)
            → is_ready before parts ready self.old
            → IsDroppedHead rules parts before (standing self.new) }
        ensures rest { is_at_rest self.new };

    /// The response that says that a limit was met, on the generation in force after what the pass has seen.
    fn print_limit(
        &self,
        alloc: Global,
        limit: &Self::Limit,
        head_only: bool,
    ) -> Result<Text, AllocError>
        ensures { IfOk result (λ text. text
            ≡ rules.limit_response limit.now (standing self.now).generation head_only) };

    /// The response that says that no head came.
    fn print_refusal(&self, alloc: Global, why: Unreadable) -> Result<Text, AllocError>
        ensures { IfOk result (λ text. text ≡ rules.refusal why) };

    /// Is told that a response was sent, or that its sending failed.
    fn answered(&mut self)
        requires { is_at_rest self.old }
        ensures rest { is_at_rest self.new }
        ensures standing { standing self.new ≡ standing self.old };

    // What the rules are is as that of any such language.
    ghost lawful: { IsLawful rules };
}
