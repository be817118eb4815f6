//! One head.
ghost use Rattle.std.specs.Prelude.{◌≡◌, ◌≤◌, ◌+◌, ◌<◌, ◌++◌, IfOk, OnOk, vec_len, vec_capacity};
ghost use Rattle.connection_items.specs.Exchanges.{Standing, receipt_in};
ghost use Rattle.connection_items.specs.Ends.{SameReads};
ghost use Rattle.connection_items.specs.Rules.{closing};
ghost use Rattle.connection_items.specs.Going.{Serving, Parts, step_after};
ghost use Rattle.connection_items.specs.declared.ends.End.TheVariants.{Full};
ghost use Rattle.worker.specs.Serves.{sight};

use crate::part::part;
use crate::serves_heads::{Entered, ServesHeads, Taken};
use connection_items::{End, Manner, Step};
use lists::Text;
use outside::Delivery;
use outside_links::{Link, send_all};
use std::alloc::{AllocError, Global};
use std::sync::Wait;

/// The step after a head that was answered.
fn after<F: Drop>(manner: Manner) -> Step<F>
    ensures { result ≡ step_after manner }
{
    if manner.body {
        Step::Over(End::Unread)
    } else if manner.close {
        Step::Over(End::Closed)
    } else {
        Step::On
    }
}

/// Says that a limit was met.
fn decline<S: ServesHeads, L: Link>(
    alloc: Global,
    server: &S,
    link: &mut L,
    limit: S::Limit,
    manner: Manner,
) -> Step<S::Limit>
    ensures parts { Parts
        (S.rules.limit_response limit (S.standing server.now).generation manner.head_only)
        (Full limit) result (L.was_written link.old) (L.was_written link.new)
        (L.write_faults link.old) (L.write_faults link.new) }
    ensures read { L.was_read link.new ≡ L.was_read link.old }
    ensures left { L.left link.new ≡ L.left link.old }
    ensures read_faults { L.read_faults link.new ≡ L.read_faults link.old }
{
    let printed = server.print_limit(alloc, &limit, manner.head_only);
    part(link, End::Full(limit), printed)
}

/// Prints a head's response, and makes room for its receipt.
fn prepare<S: ServesHeads>(
    alloc: Global,
    server: &S,
    receipts: &mut Vec<S::Receipt>,
    ready: &S::Ready,
    manner: Manner,
) -> Result<Text, AllocError>
    ensures text { IfOk result (λ text. text ≡ S.rules.response (S.item_of ready.now) (closing manner)
        manner.head_only) }
    ensures room { OnOk result (vec_len receipts.new < vec_capacity receipts.new) }
    ensures receipts { receipts.new.items ≡ receipts.old.items }
{
    receipts.reserve(1)?;
    server.print(alloc, ready, manner.body || manner.close, manner.head_only)
}

/// Keeps a receipt, if there is one.
fn keep<R: Drop>(receipts: &mut Vec<R>, receipt: Option<R>)
    requires { vec_len receipts.old < vec_capacity receipts.old }
    ensures { receipts.new.items ≡ receipts.old.items ++ receipt_in receipt }
{
    match receipt {
        Some(receipt) => receipts.push_reserved(receipt),
        None => {}
    }
}

/// Enters the item of a head that is ready, and answers it.
fn answer<R: Wait, S: ServesHeads, L: Link>(
    rt: &R,
    alloc: Global,
    server: &mut S,
    link: &mut L,
    receipts: &mut Vec<S::Receipt>,
    ready: S::Ready,
    manner: Manner,
) -> Step<S::Limit>
    requires { (before : Standing S.Item S.Entry S.Hooks)
        × ((parts : S.Parts) × S.is_ready before parts ready server.old) }
    ensures serves { (before : Standing S.Item S.Entry S.Hooks) (parts : S.Parts)
        → S.is_ready before parts ready server.old → manner ≡ S.rules.manner parts
        → Serving S.rules parts result
        (sight before receipts.old.items (L.was_read link.old) (L.left link.old) (L.was_written link.old)
        (L.read_faults link.old) (L.write_faults link.old))
        (sight (S.standing server.new) receipts.new.items (L.was_read link.new) (L.left link.new)
        (L.was_written link.new) (L.read_faults link.new) (L.write_faults link.new)) }
    ensures read { L.was_read link.new ≡ L.was_read link.old }
    ensures left { L.left link.new ≡ L.left link.old }
    ensures read_faults { L.read_faults link.new ≡ L.read_faults link.old }
    ensures rest { S.is_at_rest server.new }
{
    let Ok(text) = prepare(alloc, server, receipts, &ready, manner) else {
        server.abandon(rt, ready);
        return Step::Over(End::Memory);
    };
    match server.enter(rt, ready) {
        Entered::Memory => Step::Over(End::Memory),
        Entered::Full(limit) => decline(alloc, server, link, limit, manner),
        Entered::Done(receipt) => {
            keep(receipts, receipt);
            let sent = send_all(link, text.as_bytes());
            server.answered();
            match sent {
                Delivery::Failed => Step::Over(End::WriteFault),
                Delivery::Whole => after(manner),
            }
        }
    }
}

/// Serves one head: its response is printed before its item is entered, and sent afterwards.
pub fn serve_head<R: Wait, S: ServesHeads, L: Link>(
    rt: &R,
    alloc: Global,
    server: &mut S,
    link: &mut L,
    receipts: &mut Vec<S::Receipt>,
    parts: &S::Parts,
) -> Step<S::Limit>
    requires { S.is_at_rest server.old }
    ensures serves { Serving S.rules parts.now result
        (sight (S.standing server.old) receipts.old.items (L.was_read link.old) (L.left link.old)
        (L.was_written link.old) (L.read_faults link.old) (L.write_faults link.old))
        (sight (S.standing server.new) receipts.new.items (L.was_read link.new) (L.left link.new)
        (L.was_written link.new) (L.read_faults link.new) (L.write_faults link.new)) }
    ensures read { L.was_read link.new ≡ L.was_read link.old }
    ensures left { L.left link.new ≡ L.left link.old }
    ensures read_faults { L.read_faults link.new ≡ L.read_faults link.old }
    ensures rest { S.is_at_rest server.new }
{
    let manner = server.manner(parts);
    match server.take(rt, alloc, parts) {
        Taken::Memory => Step::Over(End::Memory),
        Taken::Full(limit) => decline(alloc, server, link, limit, manner),
        Taken::Ready(ready) => answer(rt, alloc, server, link, receipts, ready, manner),
    }
}
