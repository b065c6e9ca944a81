//! Texts of `depends`, the members that they name, and the number of the names.
ghost use Rattle.std.specs.Prelude.{◌<◌, ◌^◌, All, length};
ghost use Rattle.reg_tables.specs.Words.{AreWords};

use super::*;
use reg_forms::RowCode;
use vkb_bytes::Listed;

const OPTIONS: &[u8] = b"<registry>\
<types><type name='VkBool32'/><type category='struct' name='VkF'><member><type>VkBool32</type> <name>m</name></member></type>\
<type category='struct' name='VkG' alias='VkF'/></types>\
<extensions><extension name='VK_A' number='1' supported='vulkan' depends='VK_B+VkF::m+VkF::n'/>\
<extension name='VK_B' number='2' supported='vulkan' depends='VkG::m,VkF::m'/>\
<extension name='VK_C' number='3' supported='vulkan' depends='VK_A,'/></extensions>\
</registry>";

/// The name of the bit at a place.
fn named(rt: &impl Abort, bits: &[Bit], place: usize, name: &[u8]) {
    match bits.get(place) {
        Some(bit) => assert_eq!(rt; bit.name.as_slice(), name),
        None => assert!(rt; false),
    }
}

#[test]
fn members_of_structs_are_bits(rt: HostRuntime) -> Result<(), Fail> {
    let alloc = rt.alloc();
    let forms = forms_in(alloc, OPTIONS)?;
    ask_for_bits(&rt, alloc, &forms)
}

/// The bits in texts of `depends`, and what is wrong with these, of what elements say.
fn ask_for_bits(rt: &impl Abort, alloc: Global, forms: &Forms) -> Result<(), Fail>
    requires { All (λ one. length one.text < 2 ^ 32) forms.now.texts }
{
    let places = words(alloc, forms)?;
    bits_are_found(rt, alloc, forms, &places)?;
    bad_texts_are_told(rt, alloc, forms, &places)
}

fn bits_are_found(
    rt: &impl Abort,
    alloc: Global,
    forms: &Forms,
    places: &[Option<Listed<(u32, u32)>>],
) -> Result<(), Fail>
    requires { AreWords forms.now places.now }
{
    let tables = Tables::new(alloc, forms)?;
    bits_over(rt, alloc, &tables, places)
}

fn bits_over(
    rt: &impl Abort,
    alloc: Global,
    tables: &Tables,
    places: &[Option<Listed<(u32, u32)>>],
) -> Result<(), Fail>
    requires { AreWords tables.now places.now }
{
    let bits = find_bits(alloc, tables, places)?;
    assert_eq!(rt; bits.len(), 2);
    named(rt, &bits, 0, b"VkF::m");
    named(rt, &bits, 1, b"VkG::m");
    names_are_few(rt, alloc, tables, &bits)
}

fn names_are_few(
    rt: &impl Abort,
    alloc: Global,
    tables: &Tables,
    bits: &[Bit],
) -> Result<(), Fail> {
    let mut faults = Vec::new(alloc);
    put_limits(alloc, tables, bits, &mut faults)?;
    assert_eq!(rt; faults.len(), 0);
    Ok(())
}

fn bad_texts_are_told(
    rt: &impl Abort,
    alloc: Global,
    forms: &Forms,
    places: &[Option<Listed<(u32, u32)>>],
) -> Result<(), Fail>
    requires { AreWords forms.now places.now }
{
    let mut faults = Vec::new(alloc);
    put_bad_texts(alloc, forms, places, &mut faults)?;
    let told = told_of(alloc, &faults)?;
    assert_eq!(rt; told.as_slice(), b"BadExpression 364 VK_A,".as_slice());
    put_fault(alloc, RowCode::NameLimit, 7, b"VK_A", &mut faults)?;
    assert_eq!(rt; faults.len(), 2);
    Ok(())
}
