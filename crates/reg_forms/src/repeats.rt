//! Members whose name stands before them.
ghost use Rattle.std.specs.Prelude.{◌≡◌, [], IfOk, IsTrue};
ghost use Rattle.std.specs.List.{list_any};
ghost use Rattle.std.specs.Str.{bytes_eq};
ghost use Rattle.reg_forms.specs.Forms.{with_item, with_items};
ghost use Rattle.reg_forms.specs.Items.{Item};
ghost use Rattle.reg_forms.specs.Parts.{repeated};
ghost use Rattle.reg_forms.specs.declared.forms.RowCode.TheVariants.{DuplicateName};

use crate::draft::Draft;
use crate::forms::{Fault, MemberForm, RowCode};
use std::alloc::Global;
use vkb_bytes::{Bytes, Memory};
use vkb_formula::Names;

/// Puts in a fault for each of these members whose name stands before it.
pub(crate) fn put_repeated(
    alloc: Global,
    members: &[MemberForm],
    draft: &mut Draft,
) -> Result<(), Memory>
    ensures { IfOk result (λ _. draft.new ≡ with_items draft.old (repeated [] members.now)) }
{
    if differ_at_sight(members) {
        return Ok(());
    }
    let mut seen = Names::new(alloc);
    for member in members {
        let before = seen.len();
        seen.intern(member.name.as_slice())?;
        if seen.len() == before {
            put_duplicate(alloc, member, draft)?;
        }
    }
    Ok(())
}

/// How many members are compared with each other, rather than looked up in a table.
const MOST_COMPARED: usize = 16;

/// Whether these members are few and no two have one name.
fn differ_at_sight(members: &[MemberForm]) -> bool
    ensures { IsTrue result → repeated [] members.now ≡ [] }
{
    if members.len() > MOST_COMPARED {
        return false;
    }
    for at in 0..members.len() {
        if is_among(&members[..at], members[at].name.as_slice()) {
            return false;
        }
    }
    true
}

/// Whether some member has this name.
fn is_among(members: &[MemberForm], name: &[u8]) -> bool
    ensures { result ≡ list_any (λ member. bytes_eq name.now member.name) members.now }
{
    for member in members {
        if name == member.name.as_slice() {
            return true;
        }
    }
    false
}

/// Puts in that the name of a member stands before it.
fn put_duplicate(alloc: Global, member: &MemberForm, draft: &mut Draft) -> Result<(), Memory>
    ensures { IfOk result (λ _. draft.new
        ≡ with_item draft.old (Item.wrong (record { code = DuplicateName; at = member.now.place; word = member.now.name }))) }
{
    draft.put_fault(Fault {
        code: RowCode::DuplicateName,
        at: member.place,
        word: Bytes::from_slice(alloc, member.name.as_slice())?,
    })
}
