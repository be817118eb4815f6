//! Parameters of a method.

ghost use Rattle.std.specs.Prelude.{◌≡◌, ◌≤◌, ◌∷◌, ◌++◌, [], true, false, length, IfOk, IfErr, OnErr};
ghost use Rattle.descent.specs.Reading.{head};
ghost use Rattle.ruby_grammar.specs.Choices.{next_is};
ghost use Rattle.ruby_grammar.specs.Terminals.{has, is_new_parameter};
ghost use Rattle.ruby_grammar.specs.Rules as rules;
ghost use Rattle.ruby_parse_cursor.specs.Views.{word_view};
ghost use Rattle.ruby_parse_steps.specs.Gives.{GivesRule};

use ruby_parse_cursor::terminals::{COMMA, NAME};
use ruby_parse_cursor::{Cursor, Fault, Locals, Word, ends_in_suffix};
use ruby_types::{Text, TextList};
use std::alloc::{AllocError, Global};
use std::marker::Model;

/// The names of parameters, in text order.
#[derive(Drop)]
pub struct Parameters<'a> {
    names: Vec<&'a [u8]>,
    /// The same names, to be looked up.
    known: Locals<'a>,
}

impl<'a> Model for Parameters<'a> {
    ghost use Rattle.std.specs.Prelude.{List, ℕ, map};
    ghost use Rattle.ruby_parse_definition.specs.Names.{HasSame};

    ghost Value = { List (List ℕ) };

    ghost view = { λ p. map (λ name. name.now) p.names.items };

    ghost invariant = { λ p. HasSame p.known (map (λ name. name.now) p.names.items) };
}

impl<'a> Parameters<'a> {
    /// No parameters, which take no memory.
    pub fn new(alloc: Global) -> Parameters<'a>
        ensures { result ≡ [] }
    {
        Parameters {
            names: Vec::new(alloc),
            known: Locals::new(alloc),
        }
    }

    /// Whether this is one of the names. A look-up, which doesn't scan them.
    pub fn contains(&self, name: &[u8]) -> bool
        ensures { result ≡ has self.now name.now }
    {
        self.known.contains(name)
    }

    /// The same names, and one more.
    pub fn with(self, name: &'a [u8]) -> Result<Parameters<'a>, AllocError>
        ensures { IfOk result (λ longer. longer ≡ self.entry ++ name.now ∷ []) }
    {
        let Parameters {
            mut names,
            mut known,
        } = self;
        names.push(name)?;
        known.insert(name)?;
        Ok(Parameters { names, known })
    }

    /// The names in text order, each copied; an error where memory runs out.
    pub fn texts(&self, alloc: Global) -> Result<TextList, AllocError>
        ensures { IfOk result (λ texts. texts ≡ self.now) }
    {
        let mut texts = TextList::new(alloc);
        'names: for name in &self.names {
            texts.push(Text::from_bytes(alloc, name)?)?;
        }
        Ok(texts)
    }

    /// The same names as variables, of which the first one counts as the latest.
    pub fn into_locals(self, alloc: Global) -> Result<Locals<'a>, AllocError>
        ensures { IfOk result (λ locals. locals ≡ self.entry) }
    {
        let Parameters {
            mut names,
            known: _,
        } = self;
        let mut locals = Locals::new(alloc);
        'names: while let Some(name) = names.pop() {
            locals.insert(name)?;
        }
        Ok(locals)
    }
}

/// Whether a name that can be a parameter behind these is at hand.
fn sees_parameter(names: &Parameters<'_>, cursor: &Cursor<'_>) -> bool
    ensures { result ≡ next_is (is_new_parameter names.now) (head cursor.now) }
{
    match cursor.peek_word() {
        Some(word) => {
            cursor.sees(NAME) && !ends_in_suffix(word.text) && !names.contains(word.text)
        }
        None => false,
    }
}

/// Passes over a name that can be a parameter behind these, which has to be at hand, and gives it.
fn parameter<'a>(names: &Parameters<'a>, cursor: &mut Cursor<'a>) -> Result<Word<'a>, Fault>
    ensures ok { IfOk result (λ w. cursor.old ≡ word_view w ∷ cursor.new) }
    ensures parameter { IfOk result (λ w. is_new_parameter names.now (word_view w) ≡ true) }
    ensures fault { IfErr result (λ e. e ≡ Fault.Unexpected) }
    ensures stays { OnErr result (cursor.new ≡ cursor.old) }
    ensures other { OnErr result (next_is (is_new_parameter names.now) (head cursor.old) ≡ false) }
{
    if sees_parameter(names, cursor) {
        cursor.take_word(NAME)
    } else {
        Err(Fault::Unexpected)
    }
}

/// The parameters that follow these, each behind a comma.
fn more_parameters<'a>(
    first: Parameters<'a>,
    cursor: &mut Cursor<'a>,
) -> Result<Parameters<'a>, Fault>
    ensures reads { GivesRule (rules.more_parameters first.entry) cursor.old result cursor.new }
    ensures shorter { length cursor.new ≤ length cursor.old }
{
    let mut names = first;
    'names: while cursor.sees(COMMA) {
        cursor.skip();
        let word = parameter(&names, cursor)?;
        names = names.with(word.text)?;
    }
    Ok(names)
}

/// The parameters between parentheses.
pub fn all_parameters<'a>(alloc: Global, cursor: &mut Cursor<'a>) -> Result<Parameters<'a>, Fault>
    ensures reads { GivesRule rules.parameters cursor.old result cursor.new }
    ensures shorter { length cursor.new ≤ length cursor.old }
{
    let none = Parameters::new(alloc);
    match parameter(&none, cursor) {
        Ok(word) => more_parameters(none.with(word.text)?, cursor),
        Err(_) => Ok(none),
    }
}
