//! The check for changed files.
ghost use Rattle.std.specs.Prelude.{◌≡◌, ℕ, List, Some, IfOk};
ghost use Rattle.outside.specs.declared.files.Stamp.{Stamp};
ghost use Rattle.outside.specs.Faults.{Counts};
ghost use Rattle.outside.specs.Told.{appended};
ghost use Rattle.outside.specs.Tree.{Given};
ghost use Rattle.system_events.specs.declared.event.Kept.{Kept};
ghost use Rattle.reload_checks.specs.Checks.{is_tree_fault, last_stamps, Check, IsCourse, IsFresh};
ghost use Rattle.shop_base.specs.Rows.{sharing_seat};
ghost use Rattle.shop_base.specs.Passes.{Gains, moved};
ghost use Rattle.shop_checks.specs.Reloaded.{HasReloaded, OnReloaded};

use crate::looking::look_again;
use crate::unloading::take_unload;
use outside::Tree;
use reload_checks::{Checked, ReloadFault, read_stamps};
use reload_matter::Reloads;
use shop::{Pass, Shop};
use std::alloc::Global;
use std::sync::Wait;

/// Puts the program of a tree's files into force where their stamps differ from those in force. Files are read and the
/// program is built between turns. Whatever it answers, the pass then shares as it did before.
pub fn check_and_reload<M: Reloads, R: Wait, T: Tree>(
    shop: &Shop<M>,
    rt: &R,
    alloc: Global,
    pass: &mut Pass<M>,
    tree: &mut T,
) -> Result<Checked, ReloadFault<M::Fault>>
    requires own { pass.old.shop ≡ shop.now }
    requires shares { pass.old.row.seat ≡ sharing_seat }
    // It has released and resumed.
    ensures same { pass.new ≡ moved pass.old pass.old.row pass.new.seen }
    // What it was given, compared, tried and entered, one after another, with this answer.
    ensures checked { (reads : List Given) × (Check M.facts M.sources pass.old.number (T.holds tree.new)
        pass.old.seen result reads pass.new.seen × (T.given tree.new ≡ appended (T.given tree.old) reads)) }
    // None, or those of an unload, with a Reload exactly where it answers Reloaded.
    ensures course { (acts : List (Kept M M.Task M.Value M.Program M.Request M.Reply M.Fault))
        × (Gains pass.old.number acts pass.old.seen pass.new.seen × IsCourse result acts) }
    // The stamps that it was given last were those in force at one of its turns, and it entered no Reload since.
    ensures fresh { IfOk result (λ _. (reads : List Given)
        × ((T.given tree.new ≡ appended (T.given tree.old) reads) × ((stamps : List (List ℕ × Stamp))
        × ((last_stamps reads ≡ Some stamps)
        × IsFresh M.facts M.sources pass.old.number stamps pass.old.seen pass.new.seen)))) }
    // Where the tree tells, a Reload is of the files that it holds now.
    ensures reloaded { OnReloaded result (λ generation. HasReloaded M.facts M.sources pass.old.number
        (T.holds tree.new) generation pass.old.seen pass.new.seen) }
    ensures faults { Counts (is_tree_fault result) (T.faults tree.old) (T.faults tree.new) }
{
    run_check(shop, rt, alloc, pass, tree)
}

// The check, step by step.
fn run_check<M: Reloads, R: Wait, T: Tree>(
    shop: &Shop<M>,
    rt: &R,
    alloc: Global,
    pass: &mut Pass<M>,
    tree: &mut T,
) -> Result<Checked, ReloadFault<M::Fault>>
    requires own { pass.old.shop ≡ shop.now }
    requires shares { pass.old.row.seat ≡ sharing_seat }
    ensures same { pass.new ≡ moved pass.old pass.old.row pass.new.seen }
    ensures checked { (reads : List Given) × (Check M.facts M.sources pass.old.number (T.holds tree.new)
        pass.old.seen result reads pass.new.seen × (T.given tree.new ≡ appended (T.given tree.old) reads)) }
    ensures faults { Counts (is_tree_fault result) (T.faults tree.old) (T.faults tree.new) }
{
    let stamps = match read_stamps::<M, T>(tree) {
        Ok(stamps) => stamps,
        Err(fault) => return Err(fault),
    };
    match take_unload(shop, rt, pass, &stamps) {
        Ok(false) => Ok(Checked::Same),
        Ok(true) => {
            let answer = look_again(shop, rt, alloc, pass, tree);
            shop.leave_section(rt, pass);
            answer
        }
        Err(_) => Err(ReloadFault::Memory),
    }
}
