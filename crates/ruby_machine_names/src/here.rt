ghost use Rattle.std.specs.Prelude.{◌≡◌, ◌++◌, IfOk, codes};
ghost use Rattle.std.specs.Fmt.{decimal};
ghost use Rattle.ruby_runs.specs.Doing.{error_at, path_of, spent};
ghost use Rattle.ruby_machine_names.specs.Steps.{Fails, Spends, here_of};

use lists::Copying;
use program_lookups::Scopes;
use ruby_types::{ErrorClass, RubyError, Text};
use std::alloc::{AllocError, Global};

/// Why a step ends a run, beside a value.
#[derive(Drop)]
pub enum Failure {
    Raised(RubyError),
    Memory,
}

impl From<AllocError> for Failure {
    ghost use Rattle.ruby_machine_names.specs.declared.here.Failure.{Failure};

    ghost from_gives = { λ e s. s ≡ Failure.Memory };

    fn from(_: AllocError) -> Failure {
        Failure::Memory
    }
}

/// Where code runs: its file, of which a request has none; its scopes; and the turns that its whole run has.
#[derive(Drop)]
pub struct HereCode {
    pub file: Option<Text>,
    pub scopes: Scopes,
    pub limit: u32,
}

impl HereCode {
    fn path(&self, alloc: Global) -> Result<Text, AllocError>
        ensures { IfOk result (λ path. path ≡ path_of self.now.file) }
    {
        match &self.file {
            None => Ok(Text::new(alloc)),
            Some(path) => path.copy(),
        }
    }

    /// An error of the code that runs here.
    pub fn error(&self, alloc: Global, class: ErrorClass, message: Text) -> Failure
        ensures { Fails (error_at (here_of self.now) class message) result }
    {
        match self.path(alloc) {
            Ok(path) => Failure::Raised(RubyError {
                class,
                message,
                path,
            }),
            Err(_) => Failure::Memory,
        }
    }

    /// The error of a run whose turns are spent.
    pub fn spent(&self, alloc: Global) -> Failure
        ensures { Fails (spent (here_of self.now)) result }
    {
        match spent_text(alloc, self.limit) {
            Ok(message) => self.error(alloc, ErrorClass::TurnBudget, message),
            Err(_) => Failure::Memory,
        }
    }

    /// The same place.
    pub fn copy(&self) -> Result<HereCode, AllocError>
        ensures { IfOk result (λ copied. copied ≡ self.now) }
    {
        let file = match &self.file {
            None => None,
            Some(path) => Some(path.copy()?),
        };
        Ok(HereCode {
            file,
            scopes: self.scopes.copy()?,
            limit: self.limit,
        })
    }
}

fn spent_text(alloc: Global, limit: u32) -> Result<Text, AllocError>
    ensures { IfOk result (λ text. text ≡ codes "turn budget of " ++ (decimal limit ++ codes " spent")) }
{
    let text = format!(in alloc; "turn budget of {limit} spent")?;
    Text::from_bytes(alloc, text.as_bytes())
}

/// Spends a turn, if one is left.
pub fn spend(turns: &mut u32) -> bool
    ensures { Spends turns.old result turns.new }
{
    if *turns == 0 {
        return false;
    }
    *turns -= 1;
    true
}
