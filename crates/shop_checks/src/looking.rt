//! What a check does while it is exclusive.
ghost use Rattle.std.specs.Prelude.{◌≡◌, ℕ, List};
ghost use Rattle.outside.specs.Faults.{Counts};
ghost use Rattle.outside.specs.Told.{appended};
ghost use Rattle.outside.specs.Tree.{Given};
ghost use Rattle.turn_lock.specs.Entries.{Lags};
ghost use Rattle.reload_checks.specs.Checks.{in_force, is_tree_fault, Tried, Look};
ghost use Rattle.shop_base.specs.Rows.{unloading_seat};
ghost use Rattle.shop_base.specs.Passes.{seat_of, moved};
ghost use Rattle.shop_checks.specs.Tries.{Rebuilds};

use crate::acts::{CompareStamps, TryProgram};
use outside::{Stamps, Tree};
use reload_checks::{Checked, ReloadFault, read_program, read_stamps};
use reload_matter::Reloads;
use shop::{Pass, Shop};
use std::alloc::Global;
use std::sync::Wait;

// Whether stamps are those in force, at one turn.
fn compare<M: Reloads, R: Wait>(shop: &Shop<M>, rt: &R, pass: &mut Pass<M>, stamps: &Stamps) -> bool
    requires own { pass.old.shop ≡ shop.now }
    ensures same { pass.new ≡ moved pass.old pass.old.row pass.new.seen }
    ensures seen { Lags seat_of pass.old.number pass.old.seen pass.new.seen }
    ensures answers { result ≡ in_force M.facts M.sources pass.new.seen stamps.now }
{
    shop.turn(rt, pass, CompareStamps { stamps })
}

// Tries a program, in one turn.
fn try_program<M: Reloads, R: Wait>(
    shop: &Shop<M>,
    rt: &R,
    pass: &mut Pass<M>,
    program: M::Program,
) -> Result<Checked, ReloadFault<M::Fault>>
    requires own { pass.old.shop ≡ shop.now }
    requires unloads { (opened : ℕ) × (pass.old.row.seat ≡ unloading_seat opened) }
    requires program { M.facts.IsProgram program }
    ensures same { pass.new ≡ moved pass.old pass.old.row pass.new.seen }
    ensures tried { Tried M.facts pass.old.number program pass.old.seen pass.new.seen result }
{
    shop.turn(rt, pass, TryProgram { program })
}

// Reads the files and builds their program between turns, and tries it in one.
fn rebuild<M: Reloads, R: Wait, T: Tree>(
    shop: &Shop<M>,
    rt: &R,
    alloc: Global,
    pass: &mut Pass<M>,
    tree: &mut T,
) -> Result<Checked, ReloadFault<M::Fault>>
    requires own { pass.old.shop ≡ shop.now }
    requires unloads { (opened : ℕ) × (pass.old.row.seat ≡ unloading_seat opened) }
    ensures same { pass.new ≡ moved pass.old pass.old.row pass.new.seen }
    ensures rebuilt { (reads : List Given) × (Rebuilds M.facts M.sources pass.old.number (T.holds tree.new)
        pass.old.seen result reads pass.new.seen × (T.given tree.new ≡ appended (T.given tree.old) reads)) }
    ensures faults { Counts (is_tree_fault result) (T.faults tree.old) (T.faults tree.new) }
{
    match read_program::<M, T>(alloc, tree) {
        Ok(program) => try_program(shop, rt, pass, program),
        Err(fault) => Err(fault),
    }
}

/// Looks at the tree again. Where the stamps still differ from those in force, the program of its files is tried.
pub fn look_again<M: Reloads, R: Wait, T: Tree>(
    shop: &Shop<M>,
    rt: &R,
    alloc: Global,
    pass: &mut Pass<M>,
    tree: &mut T,
) -> Result<Checked, ReloadFault<M::Fault>>
    requires own { pass.old.shop ≡ shop.now }
    requires unloads { (opened : ℕ) × (pass.old.row.seat ≡ unloading_seat opened) }
    ensures same { pass.new ≡ moved pass.old pass.old.row pass.new.seen }
    ensures looked { (reads : List Given) × (Look M.facts M.sources pass.old.number (T.holds tree.new)
        pass.old.seen result reads pass.new.seen × (T.given tree.new ≡ appended (T.given tree.old) reads)) }
    ensures faults { Counts (is_tree_fault result) (T.faults tree.old) (T.faults tree.new) }
{
    match read_stamps::<M, T>(tree) {
        Ok(stamps) => {
            if compare(shop, rt, pass, &stamps) {
                Ok(Checked::Same)
            } else {
                rebuild(shop, rt, alloc, pass, tree)
            }
        }
        Err(fault) => Err(fault),
    }
}
