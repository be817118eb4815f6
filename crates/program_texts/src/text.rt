ghost use Rattle.std.specs.Prelude.{ℕ, List, ◌<◌, ◌^◌, length, IfOk};
ghost use Rattle.ruby_parse.specs.Answers.{IsFaultOf};
ghost use Rattle.program_texts.specs.Read.{IsReadAs, Tells, why_of};

use program_used::FileText;
use ruby_parse::{SyntaxFault, SyntaxKind, parse};
use std::alloc::{AllocError, Global};

/// The words for a kind of fault; want of memory is no fault of a file.
fn kind_words(kind: SyntaxKind) -> Option<&'static str>
    ensures { Tells (why_of kind) result }
{
    match kind {
        SyntaxKind::Lex => Some("bad token"),
        SyntaxKind::Expected => Some("unexpected"),
        SyntaxKind::NotInProfile => Some("not in the profile"),
        SyntaxKind::TooDeep => Some("nested too deep"),
        SyntaxKind::TwiceDefined => Some("defined twice"),
        SyntaxKind::Memory => None,
    }
}

/// A first fault in words.
#[tactic(auto, using(crate::proofs::ReadLaws::fault_told))]
fn fault_text(fault: SyntaxFault) -> Result<FileText, AllocError>
    ensures { (bytes : List ℕ) → IsFaultOf bytes fault → IfOk result (IsReadAs bytes) }
{
    match kind_words(fault.kind) {
        Some(kind) => Ok(FileText::Fault { kind, at: fault.at }),
        None => Err(AllocError),
    }
}

/// What the bytes of a file are read as. An error where memory runs out.
pub fn read_text(alloc: Global, bytes: &[u8]) -> Result<FileText, AllocError>
    requires { length bytes.now < 2 ^ 32 }
    ensures { IfOk result (IsReadAs bytes.now) }
{
    match parse(alloc, bytes) {
        Ok(tree) => Ok(FileText::Tree(tree)),
        Err(fault) => fault_text(fault),
    }
}
