//! What is said of the members `sType` and `pNext` of a struct.
ghost use Rattle.std.specs.Prelude.{◌≡◌, ◌<◌, ◌++◌, length, map, All, IfOk, OnOk};
ghost use Rattle.vu_implicit.specs.Chains.{included, is_pnext, is_stype, is_word, may_include, pnext_statements, type_value};
ghost use Rattle.vu_implicit.specs.Statements.{chain_statements};

use crate::statement::Statement;
use crate::types::extending;
use crate::wording::{linked, name_of, say, tag_of};
use reg_registry::{Member, Registry};
use std::alloc::Global;
use vkb_bytes::{Bytes, Memory, is_word_byte};
use vkb_formula::NameId;

const EACH: &[u8] =
    b"Each pname:pNext pointer must: be `NULL` or point to a structure of the next statements";

const UNIQUE: &[u8] = b"Each pname:sType value in the pname:pNext chain must: be unique";

/// Whether the member tells the type of its struct.
pub(crate) fn is_stype(m: &Member) -> bool
    ensures { result ≡ is_stype m.now }
{
    m.name.as_slice() == b"sType".as_slice()
}

/// Whether the member begins a chain of structs.
pub(crate) fn is_pnext(m: &Member) -> bool
    ensures { result ≡ is_pnext m.now }
{
    m.name.as_slice() == b"pNext".as_slice()
}

/// Whether a text is one word byte or more.
fn is_word(text: &[u8]) -> bool
    ensures { result ≡ is_word text.now }
{
    for byte in text {
        if !is_word_byte(*byte) {
            return false;
        }
    }
    !text.is_empty()
}

/// All that is said of `sType` or `pNext` of a struct.
pub(crate) fn say_of_chain(
    said: &mut Vec<Statement>,
    r: &Registry,
    owner: NameId,
    m: &Member,
) -> Result<(), Memory>
    requires { owner.0 < length r.now.names }
    ensures { OnOk result (said.new.items ≡ said.old.items ++ chain_statements r.now owner m.now) }
{
    say_type_value(said, name_of(r, owner), m)?;
    if is_pnext(m) {
        let extending = extending(*said.allocator(), r, owner)?;
        say_pnext(said, r, name_of(r, owner), extending.as_slice())?;
    }
    Ok(())
}

/// The value of `sType`.
fn say_type_value(said: &mut Vec<Statement>, owner: &[u8], m: &Member) -> Result<(), Memory>
    ensures { OnOk result (said.new.items ≡ said.old.items ++ type_value owner.now m.now) }
{
    if is_stype(m) && is_word(m.values.as_slice()) {
        let text = linked(
            *said.allocator(),
            b"pname:sType must: be ename:",
            m.values.as_slice(),
        )?;
        say(said, owner, b"sType", b"sType", text)?;
    }
    Ok(())
}

/// What may stand in the chain that begins with `pNext`, where these structs extend the owner.
fn say_pnext(
    said: &mut Vec<Statement>,
    r: &Registry,
    owner: &[u8],
    extending: &[NameId],
) -> Result<(), Memory>
    requires { All (λ id. id.0 < length r.now.names) extending.now }
    ensures { OnOk result (said.new.items ≡ said.old.items ++ pnext_statements r.now owner.now extending.now) }
{
    let alloc = *said.allocator();
    if extending.is_empty() {
        let text = Vec::from_slice(alloc, b"pname:pNext must: be `NULL`")?;
        return say(said, owner, b"pNext", b"pNext", text);
    }
    let each = Vec::from_slice(alloc, EACH)?;
    say(said, owner, b"pNext", b"pNext", each)?;
    say_may_include(said, r, owner, extending)?;
    let unique = Vec::from_slice(alloc, UNIQUE)?;
    say(said, owner, b"sType", b"unique", unique)?;
    Ok(())
}

/// Each struct that may stand in the chain.
fn say_may_include(
    said: &mut Vec<Statement>,
    r: &Registry,
    owner: &[u8],
    extending: &[NameId],
) -> Result<(), Memory>
    requires { All (λ id. id.0 < length r.now.names) extending.now }
    ensures { OnOk result (said.new.items ≡ said.old.items ++ map (may_include r.now owner.now) extending.now) }
{
    for id in extending {
        let statement = may_include(*said.allocator(), owner, name_of(r, *id), *id)?;
        said.push(statement)?;
    }
    Ok(())
}

/// That a struct may stand in the chain, which needs that it is there.
fn may_include(alloc: Global, owner: &[u8], name: &[u8], id: NameId) -> Result<Statement, Memory>
    ensures { IfOk result (λ s. s ≡ included owner.now name.now id) }
{
    let tag = tag_of(alloc, owner, b"pNext", name)?;
    let text = linked(alloc, b"The pname:pNext chain can: include slink:", name)?;
    Ok(Statement {
        tag,
        text: Bytes::from_vec(text),
        needs: Some(id),
    })
}
