//! Commands and pointers to functions.
ghost use Rattle.std.specs.Prelude.{◌≡◌, ◌++◌, ◌∷◌, [], IfOk, OnOk, codes};
ghost use Rattle.std.specs.List.{flat_map};
ghost use Rattle.hdr_writer.specs.Declarations.{command, func_pointer, parameters, pointer_line};
ghost use Rattle.hdr_writer.specs.Lines.{line};

use crate::lines::{put, put_line};
use reg_registry::{Member, Row};
use std::alloc::Global;
use vkb_bytes::{Bytes, Memory};

/// Puts a command behind a text, with the result and the parameters of a row.
pub(crate) fn put_command(
    alloc: Global,
    text: &mut Vec<u8>,
    name: &[u8],
    row: &Row,
) -> Result<(), Memory>
    ensures { OnOk result (text.new.items ≡ text.old.items ++ command name.now row.now) }
{
    let parameters = parameters(alloc, row.members.as_slice())?;
    let pointer = pointer_name(alloc, name)?;
    put_both(
        text,
        name,
        pointer.as_slice(),
        row.result.as_slice(),
        parameters.as_slice(),
    )
}

/// Puts the pointer to a command and the command behind a text.
fn put_both(
    text: &mut Vec<u8>,
    name: &[u8],
    pointer: &[u8],
    own: &[u8],
    parameters: &[u8],
) -> Result<(), Memory>
    ensures { OnOk result (text.new.items ≡ text.old.items ++ (pointer_line pointer.now own.now parameters.now
        ++ line (codes "VKAPI_ATTR " ∷ own.now ∷ codes " VKAPI_CALL " ∷ name.now ∷ codes "(" ∷ parameters.now ∷ codes ");" ∷ []))) }
{
    put_pointer(text, pointer, own, parameters)?;
    put_line(
        text,
        &[
            b"VKAPI_ATTR ",
            own,
            b" VKAPI_CALL ",
            name,
            b"(",
            parameters,
            b");",
        ],
    )
}

/// The name of the pointer to a command.
fn pointer_name(alloc: Global, name: &[u8]) -> Result<Bytes, Memory>
    ensures { IfOk result (λ text. text ≡ codes "PFN_" ++ name.now) }
{
    let mut text = Vec::new(alloc);
    put(&mut text, b"PFN_")?;
    put(&mut text, name)?;
    Ok(Bytes::from_vec(text))
}

/// Puts a function pointer behind a text.
pub(crate) fn put_func_pointer(
    alloc: Global,
    text: &mut Vec<u8>,
    name: &[u8],
    row: &Row,
) -> Result<(), Memory>
    ensures { OnOk result (text.new.items ≡ text.old.items ++ func_pointer name.now row.now row.now.prototyped) }
{
    if row.prototyped {
        let parameters = parameters(alloc, row.members.as_slice())?;
        put_pointer(text, name, row.result.as_slice(), parameters.as_slice())
    } else {
        put_line(text, &[row.text.as_slice()])
    }
}

/// Puts the type of a pointer to a function behind a text.
fn put_pointer(
    text: &mut Vec<u8>,
    name: &[u8],
    result_text: &[u8],
    parameters: &[u8],
) -> Result<(), Memory>
    ensures { OnOk result (text.new.items ≡ text.old.items ++ pointer_line name.now result_text.now parameters.now) }
{
    put_line(
        text,
        &[
            b"typedef ",
            result_text,
            b" (VKAPI_PTR *",
            name,
            b")(",
            parameters,
            b");",
        ],
    )
}

/// The parameters with commas between them, or `void`.
fn parameters(alloc: Global, members: &[Member]) -> Result<Bytes, Memory>
    ensures { IfOk result (λ text. text ≡ parameters members.now) }
{
    let mut text = Vec::new(alloc);
    match members {
        [] => put(&mut text, b"void")?,
        [first, others @ ..] => {
            put(&mut text, first.text.as_slice())?;
            put_others(&mut text, others)?;
        }
    }
    Ok(Bytes::from_vec(text))
}

/// Puts parameters behind a text, with a comma before each.
fn put_others(text: &mut Vec<u8>, members: &[Member]) -> Result<(), Memory>
    ensures { OnOk result (text.new.items ≡ text.old.items ++ flat_map (λ m. codes ", " ++ m.text) members.now) }
{
    for member in members {
        put(text, b", ")?;
        put(text, member.text.as_slice())?;
    }
    Ok(())
}
