//! The laws.
ghost use Rattle.std.specs.Prelude.{ℕ, List};
ghost use Rattle.system_events.specs.declared.event.Entry.{Entry};
ghost use Rattle.system_events.specs.Legal.{after, IsLegal};
ghost use Rattle.system_events.specs.Right.{IsRight};
ghost use Rattle.system_laws.specs.Lawful.{IsExclusive, MayTake, AreOpened, AreSteady, IsTable, DefinesOnce};
ghost use Rattle.system_laws.specs.Lawful.{DefinesNeeded};

use system_events::Matter;

/// The laws of every legal history.
pub fn every_legal_history<M: Matter>()
    ensures right { (seats : ℕ)
        (history : List (Entry M M.Task M.Value M.Program M.Request M.Reply M.Fault)) →
        IsLegal M.facts seats history → IsRight M.facts history }
    ensures exclusive { (seats : ℕ)
        (history : List (Entry M M.Task M.Value M.Program M.Request M.Reply M.Fault)) →
        IsLegal M.facts seats history → IsExclusive (after M.facts seats history).seats }
    ensures may_take { (seats : ℕ)
        (history : List (Entry M M.Task M.Value M.Program M.Request M.Reply M.Fault)) →
        IsLegal M.facts seats history → MayTake M.facts (after M.facts seats history) }
    ensures table { (seats : ℕ)
        (history : List (Entry M M.Task M.Value M.Program M.Request M.Reply M.Fault)) →
        IsLegal M.facts seats history →
        IsTable M.facts (after M.facts seats history).counts.program (after M.facts seats history).table }
    ensures once { (seats : ℕ)
        (history : List (Entry M M.Task M.Value M.Program M.Request M.Reply M.Fault)) →
        IsLegal M.facts seats history → DefinesOnce M.facts history }
    ensures needed { (seats : ℕ)
        (history : List (Entry M M.Task M.Value M.Program M.Request M.Reply M.Fault)) →
        IsLegal M.facts seats history → DefinesNeeded M.facts seats history }
    ensures sections { (seats : ℕ)
        (history : List (Entry M M.Task M.Value M.Program M.Request M.Reply M.Fault)) →
        IsLegal M.facts seats history → AreOpened (after M.facts seats history) }
    ensures steady { (seats : ℕ)
        (history : List (Entry M M.Task M.Value M.Program M.Request M.Reply M.Fault)) →
        IsLegal M.facts seats history → AreSteady (after M.facts seats history) }
{}
