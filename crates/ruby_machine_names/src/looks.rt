ghost use Rattle.std.specs.Prelude.{◌≡◌, ◌++◌, ◌∷◌, [], IfOk, MatchOption, Bool, true};
ghost use Rattle.ruby_runs.specs.Bodies.{is_class_at};
ghost use Rattle.ruby_runs.specs.Names as spec;
ghost use Rattle.ruby_machine_names.specs.Steps.{FaultOf, NoFault};

use lists::Copying;
use program_lookups::{Lookups, Standing};
use ruby_types::{CPath, RubyError, Text};
use std::alloc::{AllocError, Global};

/// The path of a name inside another path.
pub fn join(alloc: Global, outer: &[Text], name: &Text) -> Result<CPath, AllocError>
    ensures { IfOk result (λ path. path ≡ outer.now ++ name.now ∷ []) }
{
    let mut path = CPath::from_slice(alloc, outer)?;
    path.push(name.copy()?)?;
    Ok(path)
}

/// Whether anything stands at a path.
pub fn is_there<P: Lookups>(program: &P, path: &CPath) -> bool
    ensures { result ≡ spec.is_there ((P.index program.now).place path.now) }
{
    match program.place(path) {
        Standing::Missing => false,
        Standing::Implicit => true,
        Standing::Faulty(_, _) => true,
        Standing::Assigned(_, _, _) => true,
        Standing::Opened(_, _) => true,
    }
}

/// Whether a class stands at a path.
pub fn is_class<P: Lookups>(program: &P, path: &CPath) -> bool
    ensures { result ≡ is_class_at ((P.index program.now).place path.now) }
{
    match program.place(path) {
        Standing::Missing => false,
        Standing::Implicit => false,
        Standing::Faulty(_, _) => false,
        Standing::Assigned(_, _, _) => false,
        Standing::Opened(_, opening) => opening.is_class,
    }
}

/// The error of the file that a path's scope is of, where it is at fault.
pub fn fault<'a, P: Lookups>(program: &'a P, path: &CPath) -> Option<&'a RubyError>
    ensures { MatchOption result (NoFault ((P.index program.now).place path.now))
        (λ error. FaultOf ((P.index program.now).place path.now) error.now) }
{
    match program.place(path) {
        Standing::Missing => None,
        Standing::Implicit => None,
        Standing::Faulty(_, error) => Some(error),
        Standing::Assigned(_, _, _) => None,
        Standing::Opened(_, _) => None,
    }
}

/// The same error.
pub fn copy_error(error: &RubyError) -> Result<RubyError, AllocError>
    ensures { IfOk result (λ copied. copied ≡ error.now) }
{
    Ok(RubyError {
        class: error.class,
        message: error.message.copy()?,
        path: error.path.copy()?,
    })
}
