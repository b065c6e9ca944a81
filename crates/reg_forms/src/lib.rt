//! What each element of a registry says by itself, for one API: the types, constants, commands, enumerants, features, extensions and
//! blocks that it declares, in the order of the text, with what is wrong with an element by itself.
//!
//! What elements say of each other (a name that nothing declares, a value that two give) isn't asked here.
//!
//! ```text
//! <registry>
//!   <types><type category="struct" name="VkA"/></types>                  declares  VkA, a struct, at byte 17
//!   <feature api="vulkan" name="VK_V" number="1.0">                      an option VK_V, 1.0
//!     <require><type name="VkA"/></require>                              a block of VK_V that lists VkA
//!   </feature>
//!   <enums/>                                                             a fault: BadAttribute with the word `name`
//! </registry>
//!
//! let tree = read_markup(alloc, bytes)?;
//! let forms = read_forms(alloc, &Element::root(bytes, &tree), b"vulkan")?;
//! ```
#![tactic(auto)]

ghost use Rattle.std.specs.Prelude.{◌≡◌, IfOk};
ghost use Rattle.reg_reader.specs.Views.{element_size};
ghost use Rattle.reg_forms.specs.Forms.{forms_of};
ghost use Rattle.reg_forms.specs.Sizes.{AreSmall};

mod attributes;
mod blocks;
mod declarations;
mod draft;
mod enum_attributes;
mod enum_types;
mod enums;
mod forms;
mod groups;
mod laws;
mod options;
mod parts;
mod reading;
mod repeats;
mod rows;
mod words;

use crate::attributes::is_named;
use crate::draft::Draft;
use crate::enum_types::enum_types;
use crate::reading::read_children;
use crate::words::put_wrong;
pub use forms::{
    BlockForm, Declaration, DependsText, EntryForm, EnumForm, Fault, Forms, Given, GroupForm,
    MemberForm, Mention, OptionForm, RowCode, Sort,
};
pub use laws::{declarations_rise, only_commands_mention_commands};
use reg_reader::Element;
use std::alloc::Global;
pub use vkb_bytes::Memory;

#[cfg(test)]
mod tests;

/// What the elements of a registry come to that count for an API, in one pass and in memory in proportion to the registry.
pub fn read_forms(alloc: Global, root: &Element, api: &[u8]) -> Result<Forms, Memory>
    ensures forms { IfOk result (λ forms. forms ≡ forms_of api.now root.now) }
    ensures small { IfOk result (AreSmall (element_size root.now)) }
{
    let mut draft = Draft::new(alloc);
    if !is_named(root, b"registry") {
        put_wrong(alloc, root, RowCode::BadAttribute, b"registry", &mut draft)?;
        return Ok(draft.finish());
    }
    let enum_types = enum_types(alloc, root, api)?;
    read_children(alloc, root, api, &enum_types, &mut draft)?;
    Ok(draft.finish())
}
