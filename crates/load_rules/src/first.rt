//! Replies on files of the first form.
ghost use Rattle.std.specs.Prelude.{◌≡◌, ℕ, List, ◌<◌, ◌^◌, length, All, IfOk, IfErr, OnOk};
ghost use Rattle.load_rules.specs.FirstForm.{FirstParts, first_tree};
ghost use Rattle.load_rules.specs.FirstReply.{IsReadable, IsReplyOf, IsFileReply, FirstReply, no_controller_text};
ghost use Rattle.load_rules.specs.FirstReply.{no_action_text, IsRefusalOf};
ghost use Rattle.load_rules.specs.Readings.{IsReadingOf, IsAskedOf, IsFoundReply};

use crate::fault::syntax_error;
use crate::form::first_method;
use crate::names::{Asked, asked_of};
use crate::reading::{Reading, read_file};
use crate::refusal::FirstRefusal;
use lists::Copying;
use outside::{FileEntry, Snapshot};
use ruby_types::{FileTree, Reply, Text};
use std::alloc::{AllocError, Global};

fn no_controller(alloc: Global, class: &[u8]) -> Result<Text, AllocError>
    ensures { IfOk result (λ text. text ≡ no_controller_text class.now) }
{
    let mut text = Vec::new(alloc);
    text.extend_from_slice(b"no controller ")?;
    text.extend_from_slice(class)?;
    Text::from_vec(alloc, text)
}

fn no_action(alloc: Global, action: &[u8], class: &[u8]) -> Result<Text, AllocError>
    ensures { IfOk result (λ text. text ≡ no_action_text class.now action.now) }
{
    let mut text = Vec::new(alloc);
    text.extend_from_slice(b"no action ")?;
    text.extend_from_slice(action)?;
    text.extend_from_slice(b" in ")?;
    text.extend_from_slice(class)?;
    Text::from_vec(alloc, text)
}

/// The reply that a tree of the first form gives.
fn method_reply(
    alloc: Global,
    tree: &FileTree,
    class: &[u8],
    action: &[u8],
) -> Result<Reply, AllocError>
    requires { (parts : FirstParts) × (tree.now ≡ first_tree class.now parts) }
    ensures { IfOk result (λ reply. (parts : FirstParts) → tree.now ≡ first_tree class.now parts →
        IsReplyOf class.now action.now parts reply) }
{
    match first_method(tree, class) {
        None => unreachable!(),
        Some(method) => {
            if method.name == action {
                let body = Text::from_bytes(alloc, method.text)?;
                Ok(Reply { status: 200, body })
            } else {
                let body = no_action(alloc, action, class)?;
                Ok(Reply { status: 404, body })
            }
        }
    }
}

/// The reply that a controller's file gives, once it is read.
fn file_reply(
    alloc: Global,
    file: &FileEntry,
    reading: &Reading,
    asked: &Asked<'_>,
) -> Result<Reply, AllocError>
    requires { IsReadingOf asked.now.class file.now.bytes reading.now }
    ensures { IfOk result (IsFileReply asked.now.class asked.now.action.now file.now) }
{
    match reading {
        Reading::Tree(tree) => method_reply(alloc, tree, asked.class.as_bytes(), asked.action),
        Reading::Fault { at, kind } => {
            let body = syntax_error(alloc, kind, *at, file.path.as_bytes())?;
            Ok(Reply { status: 500, body })
        }
    }
}

/// Judges all files, and gives the reply of the one that is asked for.
fn find_reply(
    alloc: Global,
    files: &[FileEntry],
    asked: &Asked<'_>,
) -> Result<Option<Reply>, FirstRefusal>
    requires lengths { All (λ file. length file.bytes < 2 ^ 32) files.now }
    requires asked { (controller : List ℕ) × (action : List ℕ) × IsAskedOf controller action asked.now }
    ensures readable { OnOk result (All IsReadable files.now) }
    ensures reply { IfOk result (IsFoundReply files.now asked.now) }
    ensures not_built { IfErr result (IsRefusalOf files.now) }
{
    let mut reply = None;
    'files: for file in files {
        let Some(reading) = read_file(alloc, file)? else {
            return Err(FirstRefusal::NotBuilt(file.path.copy()?));
        };
        if file.path.as_bytes() == asked.path.as_bytes() {
            reply = Some(file_reply(alloc, file, &reading, asked)?);
        }
    }
    Ok(reply)
}

/// The reply to a request for this action, on files of the first form.
pub fn first_reply(
    alloc: Global,
    snapshot: &Snapshot,
    controller: &[u8],
    action: &[u8],
) -> Result<Reply, FirstRefusal>
    requires { All (λ file. length file.bytes < 2 ^ 32) snapshot.now.files }
    ensures readable { OnOk result (All IsReadable snapshot.now.files) }
    ensures reply { IfOk result (FirstReply snapshot.now.files controller.now action.now) }
    ensures not_built { IfErr result (IsRefusalOf snapshot.now.files) }
{
    let asked = asked_of(alloc, controller, action)?;
    match find_reply(alloc, snapshot.files.as_slice(), &asked)? {
        Some(reply) => Ok(reply),
        None => {
            let body = no_controller(alloc, asked.class.as_bytes())?;
            Ok(Reply { status: 404, body })
        }
    }
}
