//! The markup of the Vulkan API registry (the registry manual, `registry.html`): the tree that the bytes spell, or the
//! place where they stop. What is read is a profile of XML: elements, attributes, characters with references, comments
//! and a declaration.
//!
//! The tree has the places of its parts in the bytes, and [`Element`] shows what stands there:
//!
//! ```text
//! <types>A<type name="VkA"/>&lt;<comment>B</comment></types>
//! 0       8                 26
//!
//! let tree = read_markup(alloc, bytes)?;
//! let types = Element::root(bytes, &tree);
//! types.name()                              // types
//! types.text(alloc)?                        // A<, without the comment
//! types.text_before(alloc, b"type")?        // A
//! let mut children = types.children();
//! let one = children.next();                // the element at byte 8
//! one.attribute(alloc, b"name")?            // VkA
//! ```
#![tactic(auto)]

ghost use Rattle.std.specs.Prelude.{◌≡◌, ◌<◌, ◌^◌, ◌⊎◌, ℕ, length, Ok, Err, IfOk};
ghost use Rattle.reg_reader.specs.declared.markup.Node.{Node};
ghost use Rattle.reg_reader.specs.Markup.{Spells, IsStop, IsTooDeep, OneTree, PartsAreThere, HasCharacters, AreCharactersOf};

use std::alloc::Global;

mod characters;
mod decide;
mod laws;
mod markup;
mod passing;
mod phase;
mod reader;
mod reading;
mod reference;
mod view;

pub use laws::{
    attributes_differ, characters_are_no_longer, characters_are_undone, elements_are_no_larger,
    fronts_end_at_the_stop, one_answer, one_element, places_rise,
};
pub use markup::{MarkupFault, Node, Part};
pub use view::{Children, Element};
pub use vkb_bytes::Memory;

/// Reads the tree that the bytes spell, in one pass and in memory in proportion to their number. Places are counted in
/// bytes from 0. Elements nest at most 32 deep, the root being the first level.
///
/// `BadMarkup` gives the place where the bytes stop: the length of the longest front of them with which some markup of
/// whatever depth begins. `TooDeep` gives the place of the `<` of the first element that lies in 32 others, and comes
/// also where what follows is no markup. The name of an attribute is compared with those before it in its element, so
/// the time for an element grows with the square of the number of its attributes.
pub fn read_markup(alloc: Global, bytes: &[u8]) -> Result<Node, MarkupFault>
    requires { length bytes.now < 2 ^ 32 }

    // What is read is spelled so, and nothing else is.
    ensures found { IfOk result (λ root. Spells 32 root bytes.now) }
    ensures only { IfOk result (λ root. (most : ℕ) (other : Node) → Spells most other bytes.now → other ≡ root) }

    // What is spelled is read, unless memory runs out.
    ensures spelled { (root : Node) → Spells 32 root bytes.now → (result ≡ Ok root) ⊎ (result ≡ Err MarkupFault.Memory) }

    // Where each fault is, and that it comes there, unless memory runs out.
    ensures bad { (at : ℕ) → result ≡ Err (MarkupFault.BadMarkup at) → IsStop bytes.now at }
    ensures deep { (at : ℕ) → result ≡ Err (MarkupFault.TooDeep at) → IsTooDeep bytes.now at }
    ensures stops { (at : ℕ) → IsStop bytes.now at → (result ≡ Err (MarkupFault.BadMarkup at)) ⊎ (result ≡ Err MarkupFault.Memory) }
    ensures too_deep { (at : ℕ) → IsTooDeep bytes.now at → (result ≡ Err (MarkupFault.TooDeep at)) ⊎ (result ≡ Err MarkupFault.Memory) }
{
    reading::read(alloc, bytes)
}

/// The bytes that a part stands for: those of its characters, with the references undone. The part is a `Chars` node or
/// the value of an attribute of a tree that was read from these bytes.
pub fn chars_of(alloc: Global, bytes: &[u8], part: Part) -> Result<Vec<u8>, Memory>
    requires part { HasCharacters bytes.now part }
    requires small { length bytes.now < 2 ^ 32 }
    ensures { IfOk result (λ text. AreCharactersOf bytes.now part text.items) }
{
    characters::undo(alloc, bytes, part)
}

/// Bytes spell at most one tree, at whatever limits of depth.
pub fn one_tree()
    ensures { OneTree }
{}

/// All parts of a tree lie in the bytes that spell it: names are names there, and `chars_of` takes the `Chars` nodes and
/// the values of attributes.
pub fn parts_are_there()
    ensures { PartsAreThere }
{}

#[cfg(test)]
mod tests;
#[cfg(test)]
mod view_tests;
