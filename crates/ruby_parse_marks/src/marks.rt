//! The table of what a file defines.

ghost use Rattle.std.specs.Prelude.{◌≡◌, [], false, IfOk, IfErr, OnOk, OnErr};
ghost use Rattle.ruby_grammar.specs.Definitions.{at_top, counts};
ghost use Rattle.ruby_parse_marks.specs.Paths.{Reaches, Keeps};
ghost use Rattle.ruby_parse_marks.specs.Views.{act_view, clashes, inside, outside, SameBodies, Adds, Refused};

use crate::act::Act;
use crate::acts::{done, nothing};
use crate::deeds::Deeds;
use crate::paths::{Inner, number};
use indexmap::IndexMap;
use ruby_parse_cursor::Fault;
use ruby_types::Text;
use std::alloc::{AllocError, Global};
use std::marker::Model;

/// What counts in a file so far, and the modules and classes that are open.
#[derive(Drop)]
pub struct Marks {
    alloc: Global,
    paths: IndexMap<Inner, usize>,
    /// The path of the innermost module or class that is open, or the top's.
    here: usize,
    /// Those around it, the innermost last.
    around: Vec<usize>,
    deeds: Deeds,
}

impl Model for Marks {
    ghost use Rattle.ruby_parse_marks.specs.Deeds.{done_of};
    ghost use Rattle.ruby_parse_marks.specs.Noted.{noted, IsSound};
    ghost use Rattle.ruby_parse_marks.specs.Views.{Noted};

    ghost Value = { Noted };

    ghost view = { λ m. noted m.paths.entries m.here m.around.items (done_of m.deeds) };

    ghost invariant = { λ m. IsSound m.paths.entries m.here m.around.items (done_of m.deeds) };
}

/// The number of these names in the body of the path with that number.
fn numbers(
    alloc: Global,
    paths: &mut IndexMap<Inner, usize>,
    outer: usize,
    names: &[Text],
) -> Result<usize, AllocError>
    ensures ok { IfOk result (λ n. Reaches paths.old.entries outer names.now n paths.new.entries) }
    ensures err { OnErr result (Keeps paths.old.entries outer paths.new.entries) }
{
    let mut inner = outer;
    'names: for name in names {
        inner = number(alloc, paths, inner, name.as_bytes())?;
    }
    Ok(inner)
}

impl Marks {
    /// At the beginning of a file: nothing is done, and no module and no class is open. It takes no memory.
    pub fn new(alloc: Global) -> Marks
        ensures { result ≡ record { here = []; around = []; deeds = [] } }
    {
        Marks {
            alloc,
            paths: IndexMap::new(alloc),
            here: 0,
            around: Vec::new(alloc),
            deeds: nothing(alloc),
        }
    }

    /// Whether no module and no class is open.
    pub fn is_top(&self) -> bool
        ensures { result ≡ at_top self.now.here }
    {
        self.here == 0
    }

    /// Goes into a module or class with this path in the one around.
    pub fn open(&mut self, names: &[Text]) -> Result<(), AllocError>
        ensures opened { OnOk result (self.new ≡ inside self.old names.now) }
        ensures stays { OnErr result (self.new ≡ self.old) }
    {
        let inner = numbers(self.alloc, &mut self.paths, self.here, names)?;
        self.around.push(self.here)?;
        self.here = inner;
        Ok(())
    }

    /// Goes out of the innermost module or class, if one is open.
    pub fn close(&mut self)
        ensures { self.new ≡ outside self.old }
    {
        match self.around.pop() {
            Some(outer) => {
                self.here = outer;
            }
            None => {}
        }
    }

    /// Does this to the path of the innermost module or class at this place. What clashes is `Twice` there.
    pub fn add(&mut self, act: Act, at: u32) -> Result<(), Fault>
        ensures clear { OnOk result (clashes self.old (counts self.old.here (act_view act) at) ≡ false) }
        ensures added { OnOk result (Adds self.old (counts self.old.here (act_view act) at) self.new) }
        ensures bodies { OnOk result (SameBodies self.old self.new) }
        ensures refused { IfErr result (λ e. Refused self.old (counts self.old.here (act_view act) at) e) }
        ensures stays { OnErr result (self.new ≡ self.old) }
    {
        if done(&mut self.deeds, self.here, act)? {
            return Ok(());
        }
        Err(Fault::Twice(at))
    }
}
