//! One case: an application, and what `tree` must say of it.
use app_config::CONFIGURATION_PATH;
use outside::{CallNumbers, MemTree, Snapshot, Tree, TreeAns};
use std::alloc::{AllocError, Global};
use tree_command::{ListingFault, list_tree};

/// An application as the lines of a case tell it, and what is wanted of it.
#[derive(Drop)]
pub struct Case {
    tree: MemTree,
    configuration: Option<Vec<u8>>,
    wanted: Vec<u8>,
    alloc: Global,
}

fn add_line(text: &mut Vec<u8>, line: &str) -> Result<(), AllocError> {
    text.extend_from_slice(line.as_bytes())?;
    text.push(b'\n')?;
    Ok(())
}

/// What `tree` says of an application.
pub fn said_of(alloc: Global, snapshot: &Snapshot) -> Result<Vec<u8>, AllocError> {
    match list_tree(alloc, snapshot) {
        Ok(listing) => Ok(listing),
        Err(ListingFault::Refused(refusal)) => refusal.line(alloc),
        Err(ListingFault::Memory) => Err(AllocError),
    }
}

impl Case {
    fn new(alloc: Global) -> Case {
        Case {
            tree: MemTree::new(alloc, CallNumbers::new(alloc)),
            configuration: None,
            wanted: Vec::new(alloc),
            alloc,
        }
    }

    /// The case of a paragraph.
    pub fn read(alloc: Global, paragraph: &str) -> Result<Case, AllocError> {
        let mut case = Case::new(alloc);
        for line in paragraph.lines() {
            case.add(line)?;
        }
        Ok(case)
    }

    /// Adds what a line of the case's paragraph says.
    fn add(&mut self, line: &str) -> Result<(), AllocError> {
        match line.split_once(' ') {
            Some(("conf", text)) => self.add_configuration(text),
            Some(("file", path)) => self.tree.write(path, b""),
            Some(("=", text)) => add_line(&mut self.wanted, text),
            _ => Ok(()),
        }
    }

    fn add_configuration(&mut self, line: &str) -> Result<(), AllocError> {
        let mut text = match self.configuration.take() {
            Some(text) => text,
            None => Vec::new(self.alloc),
        };
        add_line(&mut text, line)?;
        self.configuration = Some(text);
        Ok(())
    }

    /// What `tree` says in place of what it must say.
    pub fn failure(self, alloc: Global) -> Result<Option<Vec<u8>>, AllocError> {
        let Case {
            mut tree,
            configuration,
            wanted,
            ..
        } = self;
        if let Some(text) = configuration {
            tree.write(CONFIGURATION_PATH, text.as_slice())?;
        }
        let said = match tree.read_all() {
            TreeAns::Read(snapshot) => said_of(alloc, &snapshot)?,
            TreeAns::Failed | TreeAns::Memory => return Err(AllocError),
        };
        if said.as_slice() == wanted.as_slice() {
            Ok(None)
        } else {
            Ok(Some(said))
        }
    }
}
