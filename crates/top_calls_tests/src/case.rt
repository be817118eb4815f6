//! Cases, read line by line.

use crate::run::{Run, run_on};
use outside::{CallNumbers, MemTree};
use ruby_types::{Text, TextList};
use std::alloc::{AllocError, Global};

/// A case as far as its lines are read.
#[derive(Drop)]
pub struct Case {
    name: String,
    words: TextList,
    tree: MemTree,
    /// The file that is being read, whose text is gathered; none where it is the output that is gathered.
    path: Option<String>,
    text: Vec<u8>,
    status: u8,
}

impl Case {
    /// A case of no line yet: it has no name, no words and no files.
    pub fn new(alloc: Global) -> Case {
        Case {
            name: String::new(alloc),
            words: TextList::new(alloc),
            tree: MemTree::new(alloc, CallNumbers::new(alloc)),
            path: None,
            text: Vec::new(alloc),
            status: 0,
        }
    }

    /// Whether no line has named it.
    pub fn is_empty(&self) -> bool {
        self.name.is_empty()
    }

    /// What its line `case` says; empty before that line.
    pub fn name(&self) -> &str {
        self.name.as_str()
    }

    /// The run that is wanted.
    pub fn wanted(&self, alloc: Global) -> Result<Run, AllocError> {
        Ok(Run {
            status: self.status,
            written: Vec::from_slice(alloc, self.text.as_slice())?,
        })
    }

    /// Runs its words over its files.
    pub fn run(mut self, alloc: Global) -> Result<Run, AllocError> {
        run_on(alloc, &self.words, &mut self.tree, &[])
    }

    /// Reads a line: whether it is one of a case.
    pub fn add(&mut self, alloc: Global, line: &str) -> Result<bool, AllocError> {
        let (name, rest) = line.split_once(' ').unwrap_or((line, ""));
        match name {
            "case" => self.name = String::from_str(alloc, rest)?,
            "word" => self.words.push(Text::from_bytes(alloc, rest.as_bytes())?)?,
            "file" => {
                self.end_file(alloc)?;
                self.path = Some(String::from_str(alloc, rest)?);
            }
            "files" => return self.add_files(alloc, rest),
            "status" => {
                self.end_file(alloc)?;
                return Ok(self.set_status(rest));
            }
            "#" => {}
            _ => return self.add_text(name, rest),
        }
        Ok(true)
    }

    fn set_status(&mut self, text: &str) -> bool {
        match text.parse::<u8>() {
            Ok(status) => {
                self.status = status;
                true
            }
            Err(_) => false,
        }
    }

    /// Writes the file whose text was gathered.
    fn end_file(&mut self, alloc: Global) -> Result<(), AllocError> {
        if let Some(path) = self.path.take() {
            self.tree.write(path.as_str(), self.text.as_slice())?;
        }
        self.text = Vec::new(alloc);
        Ok(())
    }

    /// Writes empty files with numbers in their paths.
    fn add_files(&mut self, alloc: Global, rest: &str) -> Result<bool, AllocError> {
        let (count, path) = rest.split_once(' ').unwrap_or((rest, ""));
        let Ok(count) = count.parse::<u32>() else {
            return Ok(false);
        };
        for number in 0..count {
            let path = format!(in alloc; "{path}{number}.rb")?;
            self.tree.write(path.as_str(), &[])?;
        }
        Ok(true)
    }

    /// Adds to the text that is gathered.
    fn add_text(&mut self, kind: &str, rest: &str) -> Result<bool, AllocError> {
        match kind {
            "|" => self.put(rest, "\n")?,
            ">" => self.put(rest, "\r\n")?,
            "+" => self.put(rest, "")?,
            "byte" => match rest.parse::<u8>() {
                Ok(byte) => self.text.push(byte)?,
                Err(_) => return Ok(false),
            },
            "fill" => return self.fill(rest),
            _ => return Ok(false),
        }
        Ok(true)
    }

    fn put(&mut self, text: &str, end: &str) -> Result<(), AllocError> {
        self.text.extend_from_slice(text.as_bytes())?;
        self.text.extend_from_slice(end.as_bytes())?;
        Ok(())
    }

    /// Adds a text a number of times.
    fn fill(&mut self, rest: &str) -> Result<bool, AllocError> {
        let (count, text) = rest.split_once(' ').unwrap_or((rest, ""));
        let Ok(count) = count.parse::<u32>() else {
            return Ok(false);
        };
        for _ in 0..count {
            self.text.extend_from_slice(text.as_bytes())?;
        }
        Ok(true)
    }
}
