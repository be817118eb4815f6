ghost use Rattle.std.specs.Prelude.{◌≡◌, IfOk};
ghost use Rattle.std.specs.Str.{is_utf8};
ghost use Rattle.app_config.specs.Entries as spec;
ghost use Rattle.app_config.specs.Entries.{Says};
ghost use Rattle.app_config.specs.Paths.{constant_names};
ghost use Rattle.app_config.specs.Text.{words, behind_spaces, behind_word};

use crate::config::{ConfigKind, ConfigText, ConfigTexts, LoadLine, RootLine};
use crate::operands::{Operands, operands_of};
use crate::paths::{is_constant, is_constant_path, is_tree_path};
use crate::text::{cut_at, next_word, skip_spaces};
use std::alloc::{AllocError, Global};

/// The word that begins a line.
#[derive(Clone, Copy)]
pub(crate) enum Directive {
    Root,
    Collapse,
    Ignore,
    SkipEager,
    Inflect,
    OnLoad,
}

/// What a line adds to the configuration.
#[derive(Drop)]
pub enum Entry {
    Root(RootLine),
    Collapse(ConfigText),
    Ignore(ConfigText),
    SkipEager(ConfigText),
    Inflect((ConfigText, ConfigText)),
    OnLoad(LoadLine),
}

impl From<AllocError> for ConfigKind {
    ghost use Rattle.std.specs.Prelude.{◌≡◌};
    ghost use Rattle.app_config.specs.declared.config.ConfigKind.TheVariants.{Memory};

    ghost from_gives = { λ _ kind. kind ≡ Memory };

    fn from(_error: AllocError) -> ConfigKind {
        ConfigKind::Memory
    }
}

fn directive_of(word: &[u8]) -> Option<Directive>
    ensures { result ≡ spec.directive_of word.now }
{
    if word == b"root".as_slice() {
        Some(Directive::Root)
    } else if word == b"collapse".as_slice() {
        Some(Directive::Collapse)
    } else if word == b"ignore".as_slice() {
        Some(Directive::Ignore)
    } else if word == b"skip_eager".as_slice() {
        Some(Directive::SkipEager)
    } else if word == b"inflect".as_slice() {
        Some(Directive::Inflect)
    } else if word == b"on_load".as_slice() {
        Some(Directive::OnLoad)
    } else {
        None
    }
}

fn constant_path(alloc: Global, word: &[u8]) -> Result<ConfigTexts, ConfigKind>
    ensures { Says result (spec.constant_path word.now) }
{
    if !is_constant_path(word) {
        return Err(ConfigKind::BadName);
    }
    Ok(constant_names(alloc, word)?)
}

/// The names of a constant path.
fn constant_names(alloc: Global, word: &[u8]) -> Result<ConfigTexts, AllocError>
    ensures { IfOk result (λ names. names ≡ constant_names word.now) }
{
    let mut names = ConfigTexts::new(alloc);
    let mut rest = word;
    'names: loop {
        let (name, behind) = cut_at(rest, b':');
        names.push(ConfigText::from_bytes(alloc, name)?)?;
        let Some(between) = behind else {
            return Ok(names);
        };
        let (_, more) = cut_at(between, b':');
        let Some(next) = more else {
            return Ok(names);
        };
        rest = next;
    }
}

fn root_entry(alloc: Global, text: &[u8]) -> Result<Entry, ConfigKind>
    ensures { Says result (spec.root_entry (words text.now)) }
{
    let (root, namespace) = match operands_of(text) {
        Operands::One(root) => (root, None),
        Operands::Two(root, namespace) => (root, Some(namespace)),
        Operands::None | Operands::More => return Err(ConfigKind::WordCount),
    };
    if !is_tree_path(root) {
        return Err(ConfigKind::BadPath);
    }
    let namespace = match namespace {
        None => ConfigTexts::new(alloc),
        Some(word) => constant_path(alloc, word)?,
    };
    Ok(Entry::Root(RootLine {
        path: ConfigText::from_bytes(alloc, root)?,
        namespace,
    }))
}

fn pattern_of(alloc: Global, text: &[u8]) -> Result<ConfigText, ConfigKind>
    ensures { Says result (spec.pattern (words text.now)) }
{
    let Operands::One(path) = operands_of(text) else {
        return Err(ConfigKind::WordCount);
    };
    if !is_tree_path(path) {
        return Err(ConfigKind::BadPath);
    }
    Ok(ConfigText::from_bytes(alloc, path)?)
}

fn inflect_entry(alloc: Global, text: &[u8]) -> Result<Entry, ConfigKind>
    ensures { Says result (spec.inflect_entry (words text.now)) }
{
    let Operands::Two(base, constant) = operands_of(text) else {
        return Err(ConfigKind::WordCount);
    };
    if !is_constant(constant) {
        return Err(ConfigKind::BadName);
    }
    let base = ConfigText::from_bytes(alloc, base)?;
    let constant = ConfigText::from_bytes(alloc, constant)?;
    Ok(Entry::Inflect((base, constant)))
}

fn on_load_entry(alloc: Global, text: &[u8]) -> Result<Entry, ConfigKind>
    ensures { Says result (spec.on_load_entry (words text.now) (behind_spaces (behind_word text.now))) }
{
    let Some((constant, behind)) = next_word(text) else {
        return Err(ConfigKind::WordCount);
    };
    if next_word(behind).is_none() {
        return Err(ConfigKind::WordCount);
    }
    let constant = constant_path(alloc, constant)?;
    let text = ConfigText::from_bytes(alloc, skip_spaces(behind))?;
    Ok(Entry::OnLoad(LoadLine { constant, text }))
}

/// What a directive says of the text behind it.
fn directed_entry(alloc: Global, directive: Directive, text: &[u8]) -> Result<Entry, ConfigKind>
    ensures { Says result (spec.directed (Some directive) (words text.now) (behind_spaces (behind_word text.now))) }
{
    match directive {
        Directive::Root => root_entry(alloc, text),
        Directive::Collapse => Ok(Entry::Collapse(pattern_of(alloc, text)?)),
        Directive::Ignore => Ok(Entry::Ignore(pattern_of(alloc, text)?)),
        Directive::SkipEager => Ok(Entry::SkipEager(pattern_of(alloc, text)?)),
        Directive::Inflect => inflect_entry(alloc, text),
        Directive::OnLoad => on_load_entry(alloc, text),
    }
}

fn is_utf8(line: &[u8]) -> bool
    ensures { result ≡ is_utf8 line.now }
{
    match std::str::from_utf8(line) {
        Ok(_) => true,
        Err(_) => false,
    }
}

/// What a line says that isn't blank.
fn filled_entry(alloc: Global, line: &[u8]) -> Result<Entry, ConfigKind>
    ensures { Says result (spec.entry line.now) }
{
    if !is_utf8(line) {
        return Err(ConfigKind::NotUtf8);
    }
    let Some((word, text)) = next_word(line) else {
        return Err(ConfigKind::UnknownWord);
    };
    let Some(directive) = directive_of(word) else {
        return Err(ConfigKind::UnknownWord);
    };
    directed_entry(alloc, directive, text)
}

fn is_blank(line: &[u8]) -> bool
    ensures { result ≡ spec.is_blank line.now }
{
    match line {
        [] => true,
        [first, ..] => *first == b'#',
    }
}

/// What a line says: nothing, an entry or a fault.
pub(crate) fn read_line(alloc: Global, line: &[u8]) -> Result<Option<Entry>, ConfigKind>
    ensures { Says result (spec.meaning line.now) }
{
    if is_blank(line) {
        return Ok(None);
    }
    Ok(Some(filled_entry(alloc, line)?))
}
