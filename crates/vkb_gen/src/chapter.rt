//! The chapter of a sample.
ghost use Rattle.std.specs.Prelude.{◌≡◌, ◌++◌, string_bytes, IfOk};
ghost use Rattle.std.specs.List.{concat};
ghost use Rattle.vkb_gen.specs.Chapter.{anchor_line, chapter_with, conditional_line, constant_lines, constant_link, include_line, parent_lines, parent_link, part_of, struct_lines};

use crate::items::{Item, Parents};
use std::alloc::{AllocError, Global};
use std::fmt::Write;
use vkb_bytes::{Bytes, Memory};

/// The chapter of these items.
pub(crate) fn chapter_text(alloc: Global, items: &[Item]) -> Result<Bytes, Memory>
    ensures { IfOk result (λ text. text ≡ chapter_with items.now) }
{
    let mut text = String::new(alloc);
    for item in items {
        put_part(&mut text, *item)?;
    }
    Ok(Bytes::from_vec(text.into_bytes()))
}

/// The part of an item.
fn put_part(text: &mut String, item: Item) -> Result<(), AllocError>
    ensures { IfOk result (λ _. string_bytes text.new ≡ string_bytes text.old ++ part_of item) }
{
    put_struct(text, item)?;
    put_constant(text, item.number)?;
    Ok(())
}

/// What is kept with an extension: the anchor and the page of its struct, and the link to its parent.
fn put_struct(text: &mut String, item: Item) -> Result<(), AllocError>
    ensures { IfOk result (λ _. string_bytes text.new ≡ string_bytes text.old ++ concat (struct_lines item)) }
{
    let Item { number, parents } = item;
    put_conditional(text, "ifdef", number)?;
    put_anchor(text, "gen", number)?;
    put_include(text, number)?;
    put_parent(text, parents)?;
    put_conditional(text, "endif", number)?;
    Ok(())
}

/// The link to the first parent, where there is one.
fn put_parent(text: &mut String, parents: Parents) -> Result<(), AllocError>
    ensures { IfOk result (λ _. string_bytes text.new ≡ string_bytes text.old ++ concat (parent_lines parents)) }
{
    match parents {
        Parents::Nobody => Ok(()),
        Parents::One(parent) => put_parent_link(text, parent),
        Parents::Two(parent, _) => {
            put_conditional(text, "ifdef", parent)?;
            put_parent_link(text, parent)?;
            put_conditional(text, "endif", parent)?;
            Ok(())
        }
    }
}

/// One anchor that is kept with an extension, the same that is kept without it, and a link to it.
fn put_constant(text: &mut String, number: u32) -> Result<(), AllocError>
    ensures { IfOk result (λ _. string_bytes text.new ≡ string_bytes text.old ++ concat (constant_lines number)) }
{
    put_conditional(text, "ifdef", number)?;
    put_anchor(text, "alt", number)?;
    put_conditional(text, "endif", number)?;
    put_conditional(text, "ifndef", number)?;
    put_anchor(text, "alt", number)?;
    put_conditional(text, "endif", number)?;
    put_constant_link(text, number)?;
    Ok(())
}

#[tactic(auto, unfolding(crate::specs::Chapter::conditional_line))]
fn put_conditional(text: &mut String, word: &str, number: u32) -> Result<(), AllocError>
    ensures { IfOk result (λ _. string_bytes text.new ≡ string_bytes text.old ++ conditional_line word.now number) }
{
    writeln!(text, "{word}::VK_GEN_e{number}[]")
}

#[tactic(auto, unfolding(crate::specs::Chapter::anchor_line))]
fn put_anchor(text: &mut String, kind: &str, number: u32) -> Result<(), AllocError>
    ensures { IfOk result (λ _. string_bytes text.new ≡ string_bytes text.old ++ anchor_line kind.now number) }
{
    writeln!(text, "[[{kind}-{number}]]")
}

#[tactic(auto, unfolding(crate::specs::Chapter::include_line))]
fn put_include(text: &mut String, number: u32) -> Result<(), AllocError>
    ensures { IfOk result (λ _. string_bytes text.new ≡ string_bytes text.old ++ include_line number) }
{
    writeln!(
        text,
        "include::{{generated}}/api/structs/VkGen{number}.adoc[]"
    )
}

#[tactic(auto, unfolding(crate::specs::Chapter::parent_link))]
fn put_parent_link(text: &mut String, parent: u32) -> Result<(), AllocError>
    ensures { IfOk result (λ _. string_bytes text.new ≡ string_bytes text.old ++ parent_link parent) }
{
    writeln!(text, "See <<gen-{parent}>> and slink:VkGen{parent}.")
}

#[tactic(auto, unfolding(crate::specs::Chapter::constant_link))]
fn put_constant_link(text: &mut String, number: u32) -> Result<(), AllocError>
    ensures { IfOk result (λ _. string_bytes text.new ≡ string_bytes text.old ++ constant_link number) }
{
    writeln!(text, "See <<alt-{number}>>.")
}
