ghost use Rattle.std.specs.Prelude.{◌≡◌, IfOk};
ghost use Rattle.program_index.specs.Program.{empty_program};
ghost use Rattle.program_snapshots.specs.Stamps.{same_stamps};

use lists::Listed;
use outside::{FileEntry, Snapshot, Stamps};
use program_index::Program;
use program_snapshots::are_stamps_of;
use ruby_runner::RubyRunner;
use std::alloc::{AllocError, Global};
use std::boxed::Box;
use std::marker::Model;

/// A handle of one generation's program. Whoever has it can share it, which takes no memory and can't fail (a count of
/// owners could overflow). So the program stays until the process ends, as the history that names it does.
#[derive(Drop)]
pub struct Generation {
    runner: &'static RubyRunner,
}

impl Model for Generation {
    ghost use Rattle.std.specs.Coded.{codes};
    ghost use Rattle.program_index.specs.Content.{Content};
    ghost use Rattle.program_used.specs.contracts.used.UsedText as used;
    ghost use Rattle.ruby_types.specs.contracts.tree.Expr as expr;
    ghost use Rattle.ruby_types.specs.contracts.tree.Part as part;
    ghost use Rattle.ruby_types.specs.contracts.tree.Stmt as stmt;

    ghost Value = { Content };

    ghost coded = { Prim.hlevel
        (codes, used.the_row.coded, expr.the_row.coded, part.the_row.coded, stmt.the_row.coded) };

    ghost view = { λ generation. generation.runner.now };
}

impl Generation {
    /// The first handle of a program. An error where memory runs out.
    pub fn new(alloc: Global, program: Program) -> Result<Generation, AllocError>
        ensures { IfOk result (λ generation. generation ≡ program) }
    {
        let runner = Box::new(alloc, RubyRunner::new(alloc, program))?;
        Ok(Generation {
            runner: Box::leak(runner),
        })
    }

    /// The first handle of the program of no files. An error where memory runs out.
    pub fn empty(alloc: Global) -> Result<Generation, AllocError>
        ensures { IfOk result (λ generation. generation ≡ empty_program) }
    {
        let snapshot = Snapshot {
            files: Listed::new(alloc),
        };
        match Program::build(alloc, snapshot) {
            Ok(program) => Generation::new(alloc, program),
            Err(_) => Err(AllocError),
        }
    }

    /// The files of the program, in the order of their paths.
    pub fn files(&self) -> &[FileEntry]
        ensures { result.now ≡ self.now.files }
    {
        self.runner.program().snapshot().files.as_slice()
    }

    /// Whether the program's files have these paths and stamps. It takes no memory.
    pub fn has_stamps(&self, stamps: &Stamps) -> bool
        ensures { result ≡ same_stamps stamps.now self.now.files }
    {
        are_stamps_of(stamps.as_slice(), self.files())
    }

    /// What runs the program's tasks.
    pub fn runner(&self) -> &RubyRunner
        ensures { result.now ≡ self.now }
    {
        self.runner
    }

    /// Another handle of the same program.
    pub fn share(&self) -> Generation
        ensures { result ≡ self.now }
    {
        Generation {
            runner: self.runner,
        }
    }
}
