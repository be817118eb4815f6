//! How a controller's file and class are named.
ghost use Rattle.std.specs.Prelude.{◌≡◌, ℕ, List, ◌↔◌, IsTrue, IfOk, IfSome, IsSomeAnd};
ghost use Rattle.std.specs.List.{list_all};
ghost use Rattle.std.specs.Char.{is_ascii_lowercase};
ghost use Rattle.load_rules.specs.Names.{IsLetters, first_path, class_name};
ghost use Rattle.load_rules.specs.Readings.{IsAskedOf};

use ruby_types::Text;
use std::alloc::{AllocError, Global};

fn all_letters(name: &[u8]) -> bool
    ensures { result ≡ list_all is_ascii_lowercase name.now }
{
    name.iter().all(|byte| byte.is_ascii_lowercase())
}

/// Whether there are one or more bytes, all of them letters `a` to `z`.
pub fn is_letters(name: &[u8]) -> bool
    ensures { IsTrue result ↔ IsLetters name.now }
{
    !name.is_empty() && all_letters(name)
}

/// The controller whose file has this path: of `app/controllers/hello_controller.rb`, `hello`.
pub fn first_name(path: &[u8]) -> Option<&[u8]>
    ensures found { IfSome result (λ name. IsLetters name.now × (path.now ≡ first_path name.now)) }
    ensures only { (name : List ℕ) → IsLetters name → path.now ≡ first_path name →
        IsSomeAnd result (λ found. found.now ≡ name) }
{
    let rest = path.strip_prefix(b"app/controllers/".as_slice())?;
    let name = rest.strip_suffix(b"_controller.rb".as_slice())?;
    if is_letters(name) { Some(name) } else { None }
}

/// The class of a controller: of `hello`, `HelloController`.
pub fn controller_class(alloc: Global, name: &[u8]) -> Result<Text, AllocError>
    ensures { IfOk result (λ class. class ≡ class_name name.now) }
{
    let mut class = Vec::new(alloc);
    if let Some((first, rest)) = name.split_first() {
        class.push(first.to_ascii_uppercase())?;
        class.extend_from_slice(rest)?;
    }
    class.extend_from_slice(b"Controller")?;
    Text::from_vec(alloc, class)
}

/// The path of a controller's file: of `hello`, `app/controllers/hello_controller.rb`.
pub fn controller_path(alloc: Global, name: &[u8]) -> Result<Text, AllocError>
    ensures { IfOk result (λ path. path ≡ first_path name.now) }
{
    let mut path = Vec::new(alloc);
    path.extend_from_slice(b"app/controllers/")?;
    path.extend_from_slice(name)?;
    path.extend_from_slice(b"_controller.rb")?;
    Text::from_vec(alloc, path)
}

/// What a request asks for: the action, and its controller's file and class.
#[derive(Drop)]
pub struct Asked<'a> {
    pub path: Text,
    pub class: Text,
    pub action: &'a [u8],
}

/// The action of a controller.
pub fn asked_of<'a>(
    alloc: Global,
    controller: &[u8],
    action: &'a [u8],
) -> Result<Asked<'a>, AllocError>
    ensures { IfOk result (IsAskedOf controller.now action.now) }
{
    Ok(Asked {
        path: controller_path(alloc, controller)?,
        class: controller_class(alloc, controller)?,
        action,
    })
}
