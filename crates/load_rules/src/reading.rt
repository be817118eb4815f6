//! Files as they are read: a controller's tree or its first fault.
ghost use Rattle.std.specs.Prelude.{ℕ, List, ◌<◌, ◌^◌, length, IfOk};
ghost use Rattle.ruby_parse.specs.Answers.{IsFaultOf};
ghost use Rattle.load_rules.specs.Readings.{IsReadingOf, FindsReading, FindsFileReading};

use crate::fault::kind_words;
use crate::form::first_method;
use crate::names::{controller_class, first_name};
use crate::release::release;
use outside::FileEntry;
use ruby_parse::{SyntaxFault, parse};
use ruby_types::FileTree;
use std::alloc::{AllocError, Global};

/// What a file's text was read as.
#[derive(Drop)]
pub enum Reading {
    /// A tree of the first form.
    Tree(FileTree),
    /// The place of the first fault, and its kind in words.
    Fault { at: u32, kind: &'static str },
}

fn read_fault(fault: SyntaxFault) -> Result<Reading, AllocError>
    ensures { IfOk result (λ reading. (class bytes : List ℕ) → IsFaultOf bytes fault →
        IsReadingOf class bytes reading) }
{
    match kind_words(fault.kind) {
        Some(kind) => Ok(Reading::Fault { at: fault.at, kind }),
        None => Err(AllocError),
    }
}

/// Reads a text, which has to be a controller of this class. None where its tree is of another form.
fn read_text(alloc: Global, bytes: &[u8], class: &[u8]) -> Result<Option<Reading>, AllocError>
    requires { length bytes.now < 2 ^ 32 }
    ensures { IfOk result (FindsReading class.now bytes.now) }
{
    match parse(alloc, bytes) {
        Ok(tree) => match first_method(&tree, class) {
            Some(_) => Ok(Some(Reading::Tree(tree))),
            None => {
                release(alloc, tree);
                Ok(None)
            }
        },
        Err(fault) => Ok(Some(read_fault(fault)?)),
    }
}

/// Reads a file, which has to be a controller. None where its path or its tree is of another form.
pub fn read_file(alloc: Global, file: &FileEntry) -> Result<Option<Reading>, AllocError>
    requires { length file.now.bytes < 2 ^ 32 }
    ensures { IfOk result (FindsFileReading file.now) }
{
    let Some(name) = first_name(file.path.as_bytes()) else {
        return Ok(None);
    };
    let class = controller_class(alloc, name)?;
    read_text(alloc, file.bytes.as_bytes(), class.as_bytes())
}
