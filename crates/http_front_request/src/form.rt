//! The parameters of a form.
ghost use Rattle.std.specs.Prelude.{◌≡◌, map, IfOk, OnOk};
ghost use Rattle.std.specs.String.{string_bytes};
ghost use Rattle.http_front_request.specs.Form.{form_pairs, each_once};
ghost use Rattle.http_front_request.specs.Pairs.{given, entry_bytes};
ghost use Rattle.http_front_request.specs.Request.{params_of, param};

use indexmap::IndexMap;
use ruby_types::{Pairs, Text, Value};
use std::alloc::{AllocError, Global};

/// Gives a name its value. A name that is there keeps its place.
#[tactic(auto, using(crate::proofs::Once::entries_given))]
fn give(form: &mut IndexMap<String, String>, name: String, value: String) -> Result<(), AllocError>
    ensures { OnOk result (map entry_bytes form.new.entries
        ≡ given (map entry_bytes form.old.entries) (string_bytes name) (string_bytes value)) }
{
    match form.insert(name, value) {
        Ok(_) => Ok(()),
        Err(_) => Err(AllocError),
    }
}

/// The names of a form with their values.
fn read_form(alloc: Global, form: &[u8]) -> Result<IndexMap<String, String>, AllocError>
    ensures { IfOk result (λ read. map entry_bytes read.entries ≡ each_once (form_pairs form.now)) }
{
    let mut read = IndexMap::new(alloc);
    'pairs: for pair in form_urlencoded::parse(alloc, form).into_owned() {
        let (name, value) = pair?;
        give(&mut read, name, value)?;
    }
    Ok(read)
}

/// A symbol and a text.
fn param(alloc: Global, name: String, value: String) -> Result<(Value, Value), AllocError>
    ensures { IfOk result (λ pair. pair ≡ param (string_bytes name, string_bytes value)) }
{
    let name = Text::from_vec(alloc, name.into_bytes())?;
    let value = Text::from_vec(alloc, value.into_bytes())?;
    Ok((Value::Sym(name), Value::Str(value)))
}

/// The parameters that a form gives.
pub fn params_of(alloc: Global, form: &[u8]) -> Result<Pairs, AllocError>
    ensures { IfOk result (λ params. params ≡ params_of form.now) }
{
    let mut params = Vec::new(alloc);
    'entries: for (name, value) in read_form(alloc, form)? {
        params.push(param(alloc, name, value)?)?;
    }
    Pairs::from_vec(alloc, params)
}
