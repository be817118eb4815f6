//! Passes that begin requests, in threads of their own.
ghost use Rattle.std.specs.Prelude.{◌≡◌, ◌≤◌, All, IfOk};
ghost use Rattle.shop_base.specs.Rows.{sharing_seat};
ghost use Rattle.shop_base.specs.Passes.{IsReady};

use crate::numbers::Numbers;
use shop::{Pass, Shop};
use std::alloc::{AllocError, Global};
use std::sync::Wait;
use std::thread;
use std::thread::Threads;

// Begins a request and abandons it, if no limit is met and there is memory.
fn try_request<R: Wait>(rt: &R, shop: &Shop<Numbers>, pass: &mut Pass<Numbers>)
    requires own { pass.old.shop ≡ shop.now }
    requires shares { pass.old.row.seat ≡ sharing_seat }
    requires room { 1 ≤ pass.old.row.entries }
    ensures own { pass.new.shop ≡ shop.now }
    ensures shares { pass.new.row.seat ≡ sharing_seat }
    ensures room { 1 ≤ pass.new.row.entries }
{
    match shop.begin(rt, pass, 7) {
        Ok(_) => shop.abandon(rt, pass),
        Err(_) => {}
    }
}

/// One request, from a pass at rest to a pass at rest.
pub fn serve_one<R: Wait>(rt: &R, shop: &Shop<Numbers>, pass: &mut Pass<Numbers>)
    requires { IsReady shop.now pass.old }
    ensures { IsReady shop.now pass.new }
{
    match shop.start_running(rt, pass) {
        Ok(()) => {
            try_request(rt, shop, pass);
            shop.done_running(rt, pass);
        }
        Err(_) => {}
    }
}

/// So many requests.
pub fn serve_many<R: Wait>(
    rt: &R,
    shop: &Shop<Numbers>,
    mut pass: Pass<Numbers>,
    requests: u32,
) -> Pass<Numbers>
    requires { IsReady shop.now pass }
    ensures { IsReady shop.now result }
{
    'requests: for _ in 0..requests {
        serve_one(rt, shop, &mut pass);
    }
    pass
}

/// Each pass serves so many requests in a thread of its own.
pub fn serve_by_all<R: Threads + Wait + Sync>(
    rt: &R,
    shop: &Shop<Numbers>,
    passes: Vec<Pass<Numbers>>,
    requests: u32,
) -> Result<Vec<Pass<Numbers>>, AllocError>
    requires { All (IsReady shop.now) passes.items }
    ensures { IfOk result (λ v. All (IsReady shop.now) v.items) }
{
    thread::map_vec(
        rt,
        passes,
        &|pass| -> Pass<Numbers>
            requires { IsReady shop.now pass }
            ensures { IsReady shop.entry.now result }
        { serve_many(rt, shop, pass, requests) },
    )
}

/// So many new passes, or fewer where the numbers run out.
pub fn split_many(
    alloc: Global,
    shop: &Shop<Numbers>,
    first: &mut Pass<Numbers>,
    count: u32,
) -> Result<Vec<Pass<Numbers>>, AllocError>
    requires { IsReady shop.now first.old × (first.old.number ≡ 0) }
    ensures first { IsReady shop.now first.new × (first.new.number ≡ 0) }
    ensures others { IfOk result (λ v. All (IsReady shop.now) v.items) }
{
    let mut passes = Vec::new(alloc);
    'splits: for _ in 0..count {
        match shop.split(first) {
            Ok(pass) => passes.push(pass)?,
            Err(_) => break,
        }
    }
    Ok(passes)
}
