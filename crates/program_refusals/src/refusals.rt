ghost use Rattle.std.specs.Prelude.{◌≡◌, IfOk};
ghost use Rattle.program_refusals.specs.Refusals as spec;
ghost use Rattle.program_refusals.specs.Refusals.{named_by};

use lists::Copying;
use program_snapshots::ProgramFault;
use std::alloc::AllocError;
use tree_report::{ExceededLimit, Refusal};
use tree_scan::ScanFault;

/// The refusal by a fault of names. An error where memory runs out.
fn named_by(fault: &ScanFault) -> Result<Option<Refusal>, AllocError>
    ensures { IfOk result (λ refusal. refusal ≡ named_by fault.now) }
{
    match fault {
        ScanFault::TwoRoots(path) => Ok(Some(Refusal::TwoRoots(path.copy()?))),
        ScanFault::BadName(path) => Ok(Some(Refusal::BadName(path.copy()?))),
        ScanFault::Memory => Ok(None),
    }
}

/// The refusal by a fault: none for want of memory, which refuses nothing. An error where memory runs out.
pub fn refusal_of(fault: &ProgramFault) -> Result<Option<Refusal>, AllocError>
    ensures { IfOk result (λ refusal. refusal ≡ spec.refusal_of fault.now) }
{
    match fault {
        ProgramFault::Limit(limit, number) => Ok(Some(Refusal::Limit(ExceededLimit {
            limit: *limit,
            number: *number,
        }))),
        ProgramFault::Config(fault) => Ok(Some(Refusal::Configuration(*fault))),
        ProgramFault::Scan(fault) => named_by(fault),
        ProgramFault::Memory => Ok(None),
    }
}
