ghost use Rattle.std.specs.Prelude.{IfOk, IfErr};
ghost use Rattle.tree_report.specs.Limits.{IsWithinLimits};
ghost use Rattle.tree_report.specs.Configurations.{IsConfiguration};
ghost use Rattle.tree_scan.specs.Sites.{AreSites};
ghost use Rattle.program_snapshots.specs.Sited.{IsSited};
ghost use Rattle.program_snapshots.specs.Refusals.{IsRefusal};

use crate::fault::ProgramFault;
use crate::sited::Sited;
use app_config::Config;
use outside::Snapshot;
use program_used::used_constants;
use std::alloc::{AllocError, Global};
use tree_report::{exceeded_limit, read_configuration};
use tree_scan::{Sites, scan};

fn sited_of(
    alloc: Global,
    snapshot: Snapshot,
    config: Config,
    sites: Sites,
) -> Result<Sited, AllocError>
    requires within { IsWithinLimits snapshot.files }
    requires configured { IsConfiguration snapshot.files config }
    requires sited { AreSites snapshot.files config sites }
    ensures { IfOk result (IsSited snapshot.files) }
{
    let constants = used_constants(alloc, &sites, snapshot.files.len())?;
    Ok(Sited {
        snapshot,
        config,
        sites,
        constants,
    })
}

/// The sites of an application within the limits.
fn site_within(alloc: Global, snapshot: Snapshot) -> Result<Sited, ProgramFault>
    requires { IsWithinLimits snapshot.files }
    ensures sited { IfOk result (IsSited snapshot.files) }
    ensures refusal { IfErr result (IsRefusal snapshot.files) }
{
    let config = read_configuration(alloc, snapshot.files.as_slice())?;
    match scan(alloc, &snapshot, &config) {
        Ok(sites) => Ok(sited_of(alloc, snapshot, config, sites)?),
        Err(fault) => Err(ProgramFault::from(fault)),
    }
}

/// The sites of a snapshot, or why it has no program: a limit, else a line of the configuration, else the names of the
/// files. The snapshot is dropped where there is none.
pub fn site(alloc: Global, snapshot: Snapshot) -> Result<Sited, ProgramFault>
    ensures sited { IfOk result (IsSited snapshot.files) }
    ensures refusal { IfErr result (IsRefusal snapshot.files) }
{
    match exceeded_limit(snapshot.files.as_slice()) {
        Some(exceeded) => Err(ProgramFault::Limit(exceeded.limit, exceeded.number)),
        None => site_within(alloc, snapshot),
    }
}
