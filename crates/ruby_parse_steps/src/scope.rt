//! Where an expression stands.

ghost use Rattle.std.specs.Prelude.{◌≡◌, suc, IfOk, IfErr, OnErr};
ghost use Rattle.ruby_grammar.specs.Expressions.{at_levels};

use ruby_parse_cursor::{Fault, Locals};
use std::alloc::Global;

/// How many levels of nesting a file may open.
pub const LEVELS: u32 = 100;

/// The levels of nesting that may still open, and the variables that are known.
#[derive(Clone, Copy)]
pub struct Scope<'s, 'a> {
    pub alloc: Global,
    pub levels: u32,
    pub locals: &'s Locals<'a>,
}

/// The levels that are left where one more opens.
pub fn opened(levels: u32) -> Result<u32, Fault>
    ensures left { IfOk result (λ inner. levels ≡ suc inner) }
    ensures fault { IfErr result (λ e. e ≡ Fault.Deep) }
    ensures none { OnErr result (levels ≡ 0) }
{
    if levels == 0 {
        Err(Fault::Deep)
    } else {
        Ok(levels - 1)
    }
}

impl<'s, 'a> Scope<'s, 'a> {
    ghost use Rattle.ruby_parse_steps.specs.Scopes.{scope_view};

    /// The same, one level further in.
    pub fn inner(self) -> Result<Scope<'s, 'a>, Fault>
        ensures left { IfOk result (λ inner. self.entry.levels ≡ suc inner.levels) }
        ensures same { IfOk result (λ inner. scope_view inner ≡ at_levels (scope_view self.entry) inner.levels) }
        ensures fault { IfErr result (λ e. e ≡ Fault.Deep) }
        ensures none { OnErr result (self.entry.levels ≡ 0) }
    {
        let levels = opened(self.levels)?;
        Ok(Scope { levels, ..self })
    }
}
