//! The files of a made application.
ghost use Rattle.std.specs.Prelude.{◌≡◌, ◌++◌, ◌∷◌, [], ◌<◌, IfOk, OnOk};
ghost use Rattle.demo_generator.specs.Files as spec;
ghost use Rattle.demo_generator.specs.Files.{number, line};

use lists::Text;
use plain_text::push_decimal;
use std::alloc::{AllocError, Global};

/// The path of the controller's file.
pub const CONTROLLER_PATH: &str = "app/controllers/demo_controller.rb";

// Adds a text with a number in its midst.
fn push_numbered(
    alloc: Global,
    text: &mut Vec<u8>,
    before: &[u8],
    count: u32,
    behind: &[u8],
) -> Result<(), AllocError>
    ensures { OnOk result (text.new.items ≡ text.old.items ++ (before.now ++ (number count ++ behind.now))) }
{
    text.extend_from_slice(before)?;
    push_decimal(alloc, text, i64::from(count))?;
    text.extend_from_slice(behind)
}

/// The path of a module's file.
pub fn module_path(alloc: Global, index: u32) -> Result<Text, AllocError>
    ensures { IfOk result (λ path. path ≡ spec.module_path index) }
{
    let mut path = Vec::new(alloc);
    push_numbered(alloc, &mut path, b"app/lib/mod_", index, b".rb")?;
    Text::from_vec(alloc, path)
}

// A module and its value.
fn module_with(alloc: Global, index: u32, value: &[u8]) -> Result<Text, AllocError>
    ensures { IfOk result (λ text. text ≡ spec.module_with index value.now) }
{
    let mut text = Vec::new(alloc);
    push_numbered(alloc, &mut text, b"module Mod", index, b"\n")?;
    text.extend_from_slice(b"  VALUE = ")?;
    text.extend_from_slice(value)?;
    text.extend_from_slice(b"\nend\n")?;
    Text::from_vec(alloc, text)
}

// The value of a module, as it is written.
fn module_value(alloc: Global, index: u32) -> Result<Vec<u8>, AllocError>
    ensures { IfOk result (λ value. value.items ≡ spec.module_value index) }
{
    let mut value = Vec::new(alloc);
    if index == 0 {
        value.push(b'0')?;
        return Ok(value);
    }
    push_numbered(alloc, &mut value, b"Mod", index / 2, b"::VALUE + ")?;
    push_decimal(alloc, &mut value, i64::from(index))?;
    Ok(value)
}

/// The file of a module.
pub fn module_text(alloc: Global, index: u32) -> Result<Text, AllocError>
    ensures { IfOk result (λ text. text ≡ spec.module_text index) }
{
    let value = module_value(alloc, index)?;
    module_with(alloc, index, &value)
}

/// The file of the first module with another value.
pub fn edited_text(alloc: Global, value: u32) -> Result<Text, AllocError>
    ensures { IfOk result (λ text. text ≡ spec.edited_text value) }
{
    let mut digits = Vec::new(alloc);
    push_decimal(alloc, &mut digits, i64::from(value))?;
    module_with(alloc, 0, &digits)
}

// Adds a line with a number in its midst.
fn push_line(
    alloc: Global,
    text: &mut Vec<u8>,
    before: &[u8],
    count: u32,
    behind: &[u8],
) -> Result<(), AllocError>
    ensures { OnOk result
        (text.new.items ≡ text.old.items ++ line (before.now ++ (number count ++ behind.now))) }
{
    push_numbered(alloc, text, before, count, behind)?;
    text.extend_from_slice(b"\n")
}

// Adds the action of a module.
fn push_action(alloc: Global, text: &mut Vec<u8>, index: u32) -> Result<(), AllocError>
    ensures { OnOk result (text.new.items ≡ text.old.items ++ spec.action index) }
{
    push_line(alloc, text, b"  def self.m", index, b"(params)")?;
    push_line(alloc, text, b"    Mod", index, b"::VALUE")?;
    text.extend_from_slice(b"  end\n")
}

/// The controller's file, with an action for each of so many modules.
pub fn controller_text(alloc: Global, modules: u32) -> Result<Text, AllocError>
    ensures { IfOk result (λ text. text ≡ spec.controller_text modules) }
{
    let mut text = Vec::new(alloc);
    text.extend_from_slice(b"class DemoController\n")?;
    for index in 0..modules {
        push_action(alloc, &mut text, index)?;
    }
    text.extend_from_slice(b"end\n")?;
    Text::from_vec(alloc, text)
}

/// The target of a module's action.
pub fn action_target(alloc: Global, index: u32) -> Result<Text, AllocError>
    ensures { IfOk result (λ target. target ≡ spec.action_target index) }
{
    let mut target = Vec::new(alloc);
    push_numbered(alloc, &mut target, b"/demo/m", index, b"")?;
    Text::from_vec(alloc, target)
}
