//! The laws, each as the contract of a function that does nothing.
ghost use Rattle.std.specs.Prelude.{◌≡◌, true, [], Option};
ghost use Rattle.by_need.specs.Rounds.{Part, is_task, known};
ghost use Rattle.by_need_loader.specs.Progress.{Progress, History, IsOn};
ghost use Rattle.by_need_ends.specs.Ends.{ComesToEnd};

use by_need::Theory;
use by_need_loader::Program;

/// A load of a task over a part of what is known defines some values in a load's order, and comes to an end.
pub fn every_load_ends<Y: Theory>(theory: &Y)
    ensures { let r = Y.rules theory.now in (t : Y.Task) (K : Y.Task → Option Y.Value) → Part K (known r) →
        is_task r t ≡ true → ComesToEnd r K t [] }
{}

/// A load that goes on rightly comes to an end, however far it is.
pub fn going_loads_end<Y: Program>(theory: &Y)
    ensures { let r = Y.rules theory.now in (h : History Y.Task Y.Value)
        (p : Progress Y.Task Y.Running Y.Waiting Y.Key) → IsOn r (Y.runs theory.now) h p →
        ComesToEnd r h.at_first h.wanted h.made }
{}
