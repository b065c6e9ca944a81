//! The line for a fault of the file of a registry.
ghost use Rattle.std.specs.Prelude.{◌≡◌, ◌++◌, [], ◌∷◌, codes, decimal, IfOk, OnOk};
ghost use Rattle.std.specs.List.{flat_map};
ghost use Rattle.vkb_tool.specs.Fault.{InRegistry};
ghost use Rattle.vkb_tool.specs.Report.{code_name, fault_line, items_line, line_feed};

use super::{Memory, refused};
use crate::registry::RegistryFault;
use reg_rows::RowCode;
use std::alloc::Global;
use vkb_bytes::Bytes;

/// The line for a fault of a file that is no registry for an API.
pub fn registry_fault_text(
    alloc: Global,
    file: &str,
    api: &[u8],
    fault: &RegistryFault,
) -> Result<Vec<u8>, Memory>
    ensures { IfOk result (λ text. text.items ≡ fault_line (InRegistry file.now api.now fault.now)) }
{
    match fault {
        RegistryFault::Missing => items_text(alloc, b"Missing", file, &[]),
        RegistryFault::TooLarge => items_text(alloc, b"TooLarge", file, &[]),
        RegistryFault::BadMarkup { at } => place_text(alloc, b"BadMarkup", file, *at),
        RegistryFault::TooDeep { at } => place_text(alloc, b"TooDeep", file, *at),
        RegistryFault::BadRow { code, at, word } => row_text(
            alloc,
            *code,
            file,
            *at,
            word.as_slice(),
        ),
        RegistryFault::NoFeature => api_text(alloc, file, api),
        RegistryFault::NamingCycle { names } => items_text(
            alloc,
            b"NamingCycle",
            file,
            names.as_slice(),
        ),
    }
}

/// The line for no feature of an API.
fn api_text(alloc: Global, file: &str, api: &[u8]) -> Result<Vec<u8>, Memory>
    ensures { IfOk result (λ text. text.items ≡ items_line (codes "NoFeature") file.now (api.now ∷ [])) }
{
    let mut text = head_text(alloc, b"NoFeature", file)?;
    push_item(&mut text, api)?;
    text.push(b'\n')?;
    Ok(text)
}

/// The line for a fault at a byte, from 0, by its code.
fn place_text(alloc: Global, code: &[u8], file: &str, at: u32) -> Result<Vec<u8>, Memory>
    ensures { IfOk result (λ text. text.items ≡ items_line code.now file.now (decimal at ∷ [])) }
{
    let mut text = head_text(alloc, code, file)?;
    let place = format!(in alloc; "{at}")?;
    push_item(&mut text, place.as_bytes())?;
    text.push(b'\n')?;
    Ok(text)
}

/// The line for a fault of an element at a byte, from 0.
fn row_text(
    alloc: Global,
    code: RowCode,
    file: &str,
    at: u32,
    word: &[u8],
) -> Result<Vec<u8>, Memory>
    ensures { IfOk result (λ text. text.items ≡ items_line (code_name code) file.now (decimal at ∷ word.now ∷ [])) }
{
    let mut text = head_text(alloc, name_of(code), file)?;
    let place = format!(in alloc; "{at}")?;
    push_item(&mut text, place.as_bytes())?;
    push_item(&mut text, word)?;
    text.push(b'\n')?;
    Ok(text)
}

/// The line for a fault of a file, by its code, with items behind the file's name.
fn items_text(alloc: Global, code: &[u8], file: &str, items: &[Bytes]) -> Result<Vec<u8>, Memory>
    ensures { IfOk result (λ text. text.items ≡ items_line code.now file.now items.now) }
{
    let mut text = head_text(alloc, code, file)?;
    push_items(&mut text, items)?;
    text.push(b'\n')?;
    Ok(text)
}

/// What the line for a fault of a file begins with: its code, and the file's name.
fn head_text(alloc: Global, code: &[u8], file: &str) -> Result<Vec<u8>, Memory>
    ensures { IfOk result (λ text. text.items ≡ codes "refused " ++ code.now ++ codes " " ++ file.now) }
{
    let mut text = refused(alloc, code)?;
    text.extend_from_slice(file.as_bytes())?;
    Ok(text)
}

/// Adds items, each behind a space.
fn push_items(text: &mut Vec<u8>, items: &[Bytes]) -> Result<(), Memory>
    ensures { OnOk result (text.new.items ≡ text.old.items ++ flat_map (λ item. codes " " ++ item) items.now) }
{
    for item in items {
        push_item(text, item.as_slice())?;
    }
    Ok(())
}

/// Adds an item behind a space.
fn push_item(text: &mut Vec<u8>, item: &[u8]) -> Result<(), Memory>
    ensures { OnOk result (text.new.items ≡ text.old.items ++ (codes " " ++ item.now)) }
{
    text.push(b' ')?;
    text.extend_from_slice(item)?;
    Ok(())
}

/// The name of the code of a fault of rows.
fn name_of(code: RowCode) -> &'static [u8]
    ensures { result.now ≡ code_name code }
{
    match code {
        RowCode::BadAttribute => b"BadAttribute",
        RowCode::ApiType => b"ApiType",
        RowCode::BadExpression => b"BadExpression",
        RowCode::DuplicateName => b"DuplicateName",
        RowCode::UnknownName => b"UnknownName",
        RowCode::ValueRange => b"ValueRange",
        RowCode::ValueClash => b"ValueClash",
        RowCode::AliasCircle => b"AliasCircle",
        RowCode::NameLimit => b"NameLimit",
    }
}
