//! Passes that check for changed files, and serve a request, in threads of their own.
ghost use Rattle.std.specs.Prelude.{◌≡◌, All, IfOk};
ghost use Rattle.shop_base.specs.Rows.{sharing_seat, with_room};
ghost use Rattle.shop_base.specs.Passes.{IsReady, moved};

use crate::lengths::Lengths;
use outside::MemTree;
use shop::{Pass, Receipt, Shop};
use shop_checks::{Checked, ReloadFault, check_and_reload};
use std::alloc::{AllocError, Global};
use std::sync::Wait;
use std::thread;
use std::thread::Threads;

/// Checks the files while it shares, from a pass at rest to a pass at rest.
pub fn visit<R: Wait>(
    rt: &R,
    alloc: Global,
    shop: &Shop<Lengths>,
    pass: &mut Pass<Lengths>,
    tree: &mut MemTree,
) -> Result<Checked, ReloadFault<u64>>
    requires { IsReady shop.now pass.old }
    ensures { IsReady shop.now pass.new }
{
    match shop.start_running(rt, pass) {
        Ok(()) => {
            let checked = check_and_reload(shop, rt, alloc, pass, tree);
            shop.done_running(rt, pass);
            checked
        }
        Err(_) => Err(ReloadFault::Memory),
    }
}

// A request of a pass that shares, if no limit is met and there is memory.
fn request<R: Wait>(rt: &R, shop: &Shop<Lengths>, pass: &mut Pass<Lengths>) -> Option<Receipt>
    requires own { pass.old.shop ≡ shop.now }
    requires shares { pass.old.row ≡ with_room sharing_seat 1 0 }
    ensures same { pass.new ≡ moved pass.old pass.old.row pass.new.seen }
{
    match shop.begin(rt, pass, 7) {
        Ok(_) => Some(shop.end(rt, pass, 0)),
        Err(_) => None,
    }
}

/// A request after a check of the files, from a pass at rest to a pass at rest.
pub fn serve<R: Wait>(
    rt: &R,
    alloc: Global,
    shop: &Shop<Lengths>,
    pass: &mut Pass<Lengths>,
    tree: &mut MemTree,
) -> Option<Receipt>
    requires { IsReady shop.now pass.old }
    ensures { IsReady shop.now pass.new }
{
    match shop.start_running(rt, pass) {
        Ok(()) => {
            let receipt = match check_and_reload(shop, rt, alloc, pass, tree) {
                Ok(_) => request(rt, shop, pass),
                Err(_) => None,
            };
            shop.done_running(rt, pass);
            receipt
        }
        Err(_) => None,
    }
}

/// A pass with a tree of its own, and the receipt of its request.
#[derive(Drop)]
pub struct Visitor {
    pub pass: Pass<Lengths>,
    pub tree: MemTree,
    pub receipt: Option<Receipt>,
}

/// Each visitor serves a request in a thread of its own.
pub fn serve_by_all<R: Threads + Wait + Sync>(
    rt: &R,
    alloc: Global,
    shop: &Shop<Lengths>,
    visitors: Vec<Visitor>,
) -> Result<Vec<Visitor>, AllocError>
    requires { All (λ v. IsReady shop.now v.pass) visitors.items }
    ensures { IfOk result (λ all. All (λ v. IsReady shop.now v.pass) all.items) }
{
    thread::map_vec(
        rt,
        visitors,
        &|visitor| -> Visitor
            requires { IsReady shop.now visitor.pass }
            ensures { IsReady shop.entry.now result.pass }
        {
            let Visitor {
                mut pass,
                mut tree,
                receipt: _,
            } = visitor;
            let receipt = serve(rt, alloc, shop, &mut pass, &mut tree);
            Visitor {
                pass,
                tree,
                receipt,
            }
        },
    )
}
