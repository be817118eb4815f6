//! What the machine of Ruby code looks up of a program.
ghost use Rattle.std.specs.Prelude.{◌≡◌, None, slice_get, MatchOption};
ghost use Rattle.std.specs.Option.{option_map};
ghost use Rattle.program_places.specs.Paths.{Path};
ghost use Rattle.program_files.specs.Files.{file_at};
ghost use Rattle.program_lookups.specs.Codes.{StandsAt};
ghost use Rattle.program_outcomes.specs.Outcomes.{flat};
ghost use Rattle.program_index.specs.Content.{used_files};
ghost use Rattle.program_index.specs.Lookups.{HasRow, IsOpenedAt, IsRow, IsUnowned, IsUsedAt, LacksRow, OpensNothing};
ghost use Rattle.program_index.specs.Lookups.{asks_of, constant_at, place_in};

use crate::controllers::controller;
use crate::program::Program;
use program_code::{ContentCode, OpenedCode};
use program_faults::begins;
use program_lookups::{LoadingCode, Lookups, MethodCode, Standing};
use program_outcomes::Tasks;
use program_snapshots::number_of;
use program_standing::Standings;
use program_used::UsedText;
use ruby_nodes::NodeTable;
use ruby_types::{CPath, Text, TextList};
use std::alloc::AllocError;

/// A file that is used: its number and its text.
#[derive(Clone, Copy)]
struct Used<'a> {
    number: u32,
    text: &'a UsedText,
}

/// A constant that a file owns: the file's number, and what it says.
#[derive(Clone, Copy)]
struct Row<'a> {
    file: u32,
    code: &'a ContentCode,
}

/// The text of the file of this number, if it is used.
fn text_at(texts: &[Option<UsedText>], number: u32) -> Option<&UsedText>
    ensures { option_map (λ text. text.now) result ≡ flat (slice_get texts.now number) }
{
    match texts.get(number as usize) {
        Some(Some(text)) => Some(text),
        _ => None,
    }
}

fn code_at(codes: &[ContentCode], place: u32) -> Option<&ContentCode>
    ensures { option_map (λ code. code.now) result ≡ slice_get codes.now place }
{
    codes.get(place as usize)
}

/// The row at a place of the owned constants, if there is one.
fn row_at<'a>(standings: &Standings, codes: &'a [ContentCode], place: u32) -> Option<Row<'a>>
    ensures { MatchOption result (LacksRow standings.now codes.now place)
        (HasRow standings.now codes.now place) }
{
    let Some(file) = standings.file_at(place) else {
        return None;
    };
    match code_at(codes, place) {
        Some(code) => Some(Row { file, code }),
        None => None,
    }
}

fn tasks_at(asks: &[Option<Tasks>], number: u32) -> Option<&Tasks>
    ensures { option_map (λ tasks. tasks.now) result ≡ flat (slice_get asks.now number) }
{
    match asks.get(number as usize) {
        Some(Some(tasks)) => Some(tasks),
        _ => None,
    }
}

impl Program {
    /// The file with this path, if it is used.
    fn used_at(&self, path: &Text) -> Option<Used<'_>>
        ensures { MatchOption result (file_at (used_files self.now) path.now ≡ None) (IsUsedAt self.now path.now) }
    {
        let Some(number) = number_of(self.snapshot.files.as_slice(), path.as_bytes()) else {
            return None;
        };
        match text_at(self.texts.as_slice(), number) {
            Some(text) => Some(Used { number, text }),
            None => None,
        }
    }

    /// The constant that the file with this path is the file of. None where no file that is used has the path.
    pub fn constant_at(&self, path: &Text) -> Option<&CPath>
        ensures { option_map (λ constant. constant.now) result ≡ constant_at self.now path.now }
    {
        match self.used_at(path) {
            Some(used) => Some(&used.text.constant),
            None => None,
        }
    }

    /// What the owner of a constant says of it, if a file owns it.
    fn row_of(&self, path: &CPath) -> Option<Row<'_>>
        ensures { MatchOption result (IsUnowned self.now path.now) (IsRow self.now path.now) }
    {
        match self.tables.standings.place_of(path) {
            Some(place) => row_at(&self.tables.standings, self.tables.codes.as_slice(), place),
            None => None,
        }
    }

    /// What stands where a file says this.
    fn standing_by<'a>(&'a self, row: Row<'a>) -> Standing<'a>
        requires { (path : Path) × IsRow self.now path row }
        ensures { (path : Path) → IsRow self.now path row.entry →
            StandsAt self.now.nodes result (place_in self.now path) }
    {
        let path = &self.snapshot.files.at(row.file as usize).path;
        match row.code {
            ContentCode::Faulty => match self.fault_of(row.file) {
                Some(fault) => Standing::Faulty(path, fault),
                None => unreachable!(),
            },
            ContentCode::Assigned(first, scopes) => Standing::Assigned(path, *first, scopes),
            ContentCode::Opened(opened) => Standing::Opened(path, &opened.opening),
        }
    }

    /// The class or module that a file opens at a path, if one does.
    fn opened_at(&self, path: &CPath) -> Option<&OpenedCode>
        ensures { MatchOption result (OpensNothing self.now path.now) (λ code. IsOpenedAt self.now path.now code.now) }
    {
        match self.row_of(path) {
            Some(row) => match row.code {
                ContentCode::Opened(opened) => Some(opened),
                ContentCode::Faulty | ContentCode::Assigned(_, _) => None,
            },
            None => None,
        }
    }

    /// What loading the file of this number asks for, where it is used and not at fault.
    fn asks_at(&self, number: u32) -> Option<&Tasks>
        ensures { option_map (λ tasks. tasks.now) result ≡ asks_of self.now number }
    {
        tasks_at(self.tables.asks.as_slice(), number)
    }
}

impl Lookups for Program {
    ghost use Rattle.program_index.specs.Program.{index_in, nodes_in};

    ghost index = { index_in };

    ghost entries = { nodes_in };

    fn nodes(&self) -> &NodeTable {
        &self.tables.nodes
    }

    fn place(&self, path: &CPath) -> Standing<'_> {
        match self.row_of(path) {
            Some(row) => self.standing_by(row),
            None => {
                if self.tables.standings.has_site(path) {
                    Standing::Implicit
                } else {
                    Standing::Missing
                }
            }
        }
    }

    fn singleton(&self, path: &CPath, name: &Text) -> Option<&MethodCode> {
        match self.opened_at(path) {
            Some(opened) => opened.singles.find(name),
            None => None,
        }
    }

    fn instance(&self, path: &CPath, name: &Text) -> Option<&MethodCode> {
        match self.opened_at(path) {
            Some(opened) => opened.instances.find(name),
            None => None,
        }
    }

    fn loading(&self, file: &Text) -> LoadingCode<'_> {
        match self.used_at(file) {
            None => LoadingCode::Absent,
            Some(used) => match self.fault_of(used.number) {
                Some(fault) => LoadingCode::Fails(fault),
                None => match self.asks_at(used.number) {
                    Some(tasks) => LoadingCode::AsksFor(tasks.as_slice()),
                    None => LoadingCode::Absent,
                },
            },
        }
    }

    fn near(&self, from: &Text, to: &Text) -> bool {
        self.is_of_its_files();
        let Some(near) = self.used_at(from) else {
            return false;
        };
        let Some(owner) = self.used_at(to) else {
            return false;
        };
        begins(
            owner.text.constant.as_slice(),
            near.text.constant.as_slice(),
        )
    }

    fn controller(&self, segments: &TextList) -> Result<CPath, AllocError> {
        controller(
            self.texts.allocator().clone()?,
            segments.as_slice(),
            &self.config,
        )
    }

    fn has_file(&self, path: &CPath) -> bool {
        self.tables.standings.has_file(path)
    }
}
