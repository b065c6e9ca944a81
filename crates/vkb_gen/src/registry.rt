//! The registry of a sample.
ghost use Rattle.std.specs.Prelude.{◌≡◌, ◌++◌, string_bytes, IfOk};
ghost use Rattle.std.specs.List.{flat_map};
ghost use Rattle.vkb_gen.specs.Registry.{depends_of, extension_line, pointer_of, registry_with, struct_line};

use crate::items::{Item, Parents};
use std::alloc::{AllocError, Global};
use std::fmt::Write;
use vkb_bytes::{Bytes, Memory};

/// The registry of these items.
pub(crate) fn registry_text(alloc: Global, items: &[Item]) -> Result<Bytes, Memory>
    ensures { IfOk result (λ text. text ≡ registry_with items.now) }
{
    let mut text = String::new(alloc);
    text.push_str("<registry>\n<types>\n<type name=\"int\"/>\n")?;
    put_structs(&mut text, items)?;
    text.push_str(
        "</types>\n<feature api=\"vulkan\" name=\"VK_VERSION_1_0\" number=\"1.0\"></feature>\n<extensions>\n",
    )?;
    put_extensions(&mut text, items)?;
    text.push_str("</extensions>\n</registry>\n")?;
    Ok(Bytes::from_vec(text.into_bytes()))
}

fn put_structs(text: &mut String, items: &[Item]) -> Result<(), AllocError>
    ensures { IfOk result (λ _. string_bytes text.new ≡ string_bytes text.old ++ flat_map struct_line items.now) }
{
    for item in items {
        put_struct(text, *item)?;
    }
    Ok(())
}

fn put_struct(text: &mut String, item: Item) -> Result<(), AllocError>
    ensures { IfOk result (λ _. string_bytes text.new ≡ string_bytes text.old ++ struct_line item) }
{
    let Item { number, parents } = item;
    write!(
        text,
        "<type category=\"struct\" name=\"VkGen{number}\"><member><type>int</type> <name>a</name></member>"
    )?;
    put_pointer(text, parents)?;
    text.push_str("</type>\n")?;
    Ok(())
}

fn put_pointer(text: &mut String, parents: Parents) -> Result<(), AllocError>
    ensures { IfOk result (λ _. string_bytes text.new ≡ string_bytes text.old ++ pointer_of parents) }
{
    match parents {
        Parents::Nobody => Ok(()),
        Parents::One(parent) | Parents::Two(parent, _) => {
            write!(
                text,
                "<member>const <type>VkGen{parent}</type>* <name>b</name></member>"
            )?;
            Ok(())
        }
    }
}

fn put_extensions(text: &mut String, items: &[Item]) -> Result<(), AllocError>
    ensures { IfOk result (λ _. string_bytes text.new ≡ string_bytes text.old ++ flat_map extension_line items.now) }
{
    for item in items {
        put_extension(text, *item)?;
    }
    Ok(())
}

fn put_extension(text: &mut String, item: Item) -> Result<(), AllocError>
    ensures { IfOk result (λ _. string_bytes text.new ≡ string_bytes text.old ++ extension_line item) }
{
    let Item { number, parents } = item;
    write!(
        text,
        "<extension name=\"VK_GEN_e{number}\" number=\"{number}\" supported=\"vulkan\" depends=\""
    )?;
    put_depends(text, parents)?;
    writeln!(
        text,
        "\"><require><type name=\"VkGen{number}\"/></require></extension>"
    )?;
    Ok(())
}

fn put_depends(text: &mut String, parents: Parents) -> Result<(), AllocError>
    ensures { IfOk result (λ _. string_bytes text.new ≡ string_bytes text.old ++ depends_of parents) }
{
    match parents {
        Parents::Nobody => text.push_str("VK_VERSION_1_0"),
        Parents::One(parent) => write!(text, "VK_GEN_e{parent}"),
        Parents::Two(parent, other) => write!(text, "VK_GEN_e{parent},VK_GEN_e{other}"),
    }
}
