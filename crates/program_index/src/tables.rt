ghost use Rattle.std.specs.Prelude.{◌≡◌, ◌<◌, ◌^◌, [], length, IfOk};
ghost use Rattle.program_used.specs.Rows.{all_used};
ghost use Rattle.program_index.specs.Tables.{AreTablesOf};

use outside::FileEntry;
use program_code::{ContentCode, codes_of};
use program_outcomes::{Outcome, Tasks, outcomes_of};
use program_standing::Standings;
use program_tables::{asks_of, standings_of};
use program_used::UsedText;
use ruby_nodes::NodeTable;
use std::alloc::{AllocError, Global};

/// What is looked up of the files of an application.
#[derive(Drop)]
pub struct FileTables {
    /// The fault and the tasks of each file that is used.
    pub outcomes: Vec<Option<Outcome>>,
    /// The tasks of what is no file that is used.
    pub none: Tasks,
    /// Who owns which constant, and where a file spells one.
    pub standings: Standings,
    /// The nodes of method bodies and assigned expressions.
    pub nodes: NodeTable,
    /// What the owner of each constant says of it, in the order of the owned constants.
    pub codes: Vec<ContentCode>,
    /// What loading each file asks for, where it is used and not at fault.
    pub asks: Vec<Option<Tasks>>,
}

impl FileTables {
    /// The tables of files that have these texts. An error where memory or numbers run out.
    pub fn of(
        alloc: Global,
        files: &[FileEntry],
        texts: &[Option<UsedText>],
    ) -> Result<FileTables, AllocError>
        requires texts { length texts.now ≡ length files.now }
        requires small { length files.now < 2 ^ 32 }
        ensures { IfOk result (AreTablesOf (all_used files.now texts.now)) }
    {
        let outcomes = outcomes_of(alloc, files, texts)?;
        let standings = standings_of(alloc, texts, outcomes.as_slice())?;
        let mut nodes = NodeTable::new(alloc);
        let codes = codes_of(alloc, &mut nodes, files, texts, outcomes.as_slice())?;
        let asks = asks_of(alloc, &standings, texts, outcomes.as_slice())?;
        Ok(FileTables {
            outcomes,
            none: Tasks::new(alloc),
            standings,
            nodes,
            codes,
            asks,
        })
    }
}
