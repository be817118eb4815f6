//! The texts, insides and braces that are open at a place.

ghost use Rattle.std.specs.Prelude.{◌≡◌, [], ◌∷◌, drop, OnOk, OnErr};
ghost use Rattle.ruby_token.specs.Opens.{top_of, outermost};

use std::alloc::{AllocError, Global};
use std::marker::Model;

/// How a text is quoted.
#[derive(Clone, Copy, Debug, PartialEq, Eq)]
pub enum Quote {
    Single,
    Double,
}

/// What is open: a text with its opening quote's place, an inside part of a text, or a brace.
#[derive(Clone, Copy, Debug, PartialEq, Eq)]
pub enum Open {
    Text(Quote, u32),
    Inside,
    Brace,
}

/// What is open, as contracts see it the innermost first.
#[derive(Debug, Drop)]
pub struct Opens {
    items: Vec<Open>,
}

impl Model for Opens {
    ghost use Rattle.std.specs.Prelude.{List, reverse};
    ghost use Rattle.ruby_token.specs.declared.opens.Open.{Open};

    ghost Value = { List Open };

    ghost view = { λ s. reverse s.items.items };
}

impl Opens {
    /// Nothing is open, as at the first byte of a file.
    pub fn new(alloc: Global) -> Opens
        ensures { result ≡ [] }
    {
        Opens {
            items: Vec::new(alloc),
        }
    }

    /// Opens one thing more, which is then the innermost; without memory all stays as it was.
    pub fn push(&mut self, item: Open) -> Result<(), AllocError>
        ensures ok { OnOk result (self.new ≡ item ∷ self.old) }
        ensures err { OnErr result (self.new ≡ self.old) }
    {
        self.items.push(item)?;
        Ok(())
    }

    /// The innermost.
    pub fn top(&self) -> Option<Open>
        ensures { result ≡ top_of self.now }
    {
        match self.items.as_slice() {
            [] => None,
            [.., open] => Some(*open),
        }
    }

    /// Takes the innermost away.
    pub fn pop(&mut self) -> Option<Open>
        ensures top { result ≡ top_of self.old }
        ensures rest { self.new ≡ drop 1 self.old }
    {
        self.items.pop()
    }

    /// The place of the outermost open text's quote.
    pub fn outermost(&self) -> Option<u32>
        ensures { result ≡ outermost self.now }
    {
        for open in &self.items {
            if let Open::Text(_, quote) = open {
                return Some(*quote);
            }
        }
        None
    }
}
