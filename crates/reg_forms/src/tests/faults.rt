use crate::forms::RowCode;
use crate::read_forms;
use reg_reader::{Element, read_markup};
use std::alloc::Global;
use std::test::Fail;

/// Whether a registry of these three pieces has one fault, which is at the second piece.
fn is_at_fault(
    alloc: Global,
    front: &[u8],
    element: &[u8],
    back: &[u8],
    code: RowCode,
    word: &[u8],
) -> Result<bool, Fail> {
    let mut bytes = Vec::new(alloc);
    bytes.extend_from_slice(front)?;
    bytes.extend_from_slice(element)?;
    bytes.extend_from_slice(back)?;
    if bytes.len() > 1_000_000 {
        return Err(Fail::from("too long"));
    }
    let tree = read_markup(alloc, &bytes)?;
    let forms = read_forms(alloc, &Element::root(&bytes, &tree), b"vulkan")?;
    let faults = forms.faults.as_slice();
    if faults.len() != 1 {
        return Ok(false);
    }
    let fault = &faults[0];
    Ok(fault.code == code && fault.at as usize == front.len() && fault.word.as_slice() == word)
}

/// Whether an `enum` of an enum type has one bad attribute, which is this.
fn is_bad_value(alloc: Global, element: &[u8], word: &[u8]) -> Result<bool, Fail> {
    let front = b"<registry><types><type category='enum' name='E'/></types><enums name='E'>";
    let back = b"</enums></registry>";
    is_at_fault(alloc, front, element, back, RowCode::BadAttribute, word)
}

#[test]
fn values_of_enum_types_are_tried(rt: HostRuntime) -> Result<(), Fail> {
    let table: [(&[u8], &[u8]); 8] = [
        (b"<enum name='A'/>", b"value"),
        (b"<enum name='A' value='1' bitpos='1'/>", b"value"),
        (b"<enum name='A' value='x'/>", b"value"),
        (b"<enum value='1'/>", b"name"),
        (b"<enum name='A' bitpos='x'/>", b"bitpos"),
        (b"<enum name='A' offset='1' extnumber='1'/>", b"offset"),
        (b"<enum name='A' value='1' dir='+'/>", b"dir"),
        (
            b"<enum name='A' value='1' extnumber='1234567890'/>",
            b"extnumber",
        ),
    ];
    for (element, word) in table {
        let bad = is_bad_value(rt.alloc(), element, word)?;
        assert!(rt; bad);
    }
    Ok(())
}

/// Whether an `enum` in a block of a feature has one fault, which is this.
fn is_bad_entry(alloc: Global, element: &[u8], code: RowCode, word: &[u8]) -> Result<bool, Fail> {
    let front = b"<registry><types><type category='enum' name='E'/></types>\
        <feature api='vulkan' name='V' number='1.0'><require>";
    let back = b"</require></feature></registry>";
    is_at_fault(alloc, front, element, back, code, word)
}

#[test]
fn values_in_blocks_are_tried(rt: HostRuntime) -> Result<(), Fail> {
    let table: [(&[u8], RowCode, &[u8]); 6] = [
        (
            b"<enum name='A' bitpos='1'/>",
            RowCode::BadAttribute,
            b"bitpos",
        ),
        (
            b"<enum name='A' offset='1' extends='E'/>",
            RowCode::BadAttribute,
            b"offset",
        ),
        (
            b"<enum name='A' value='x' extends='E'/>",
            RowCode::BadAttribute,
            b"value",
        ),
        (
            b"<enum name='A' value='x' extends='F'/>",
            RowCode::UnknownName,
            b"F",
        ),
        (b"<enum/>", RowCode::BadAttribute, b"name"),
        (b"<type name=''/>", RowCode::BadAttribute, b"name"),
    ];
    for (element, code, word) in table {
        let bad = is_bad_entry(rt.alloc(), element, code, word)?;
        assert!(rt; bad);
    }
    Ok(())
}

/// Whether an element behind a first feature has one fault, which is this.
fn is_bad_child(alloc: Global, element: &[u8], code: RowCode, word: &[u8]) -> Result<bool, Fail> {
    let front = b"<registry><feature api='vulkan' name='V' number='1.0'/>";
    is_at_fault(alloc, front, element, b"</registry>", code, word)
}

#[test]
fn features_and_groups_are_tried(rt: HostRuntime) -> Result<(), Fail> {
    let table: [(&[u8], RowCode, &[u8]); 6] = [
        (
            b"<feature api='vulkan' name='W' number='01.00'/>",
            RowCode::BadAttribute,
            b"number",
        ),
        (
            b"<feature api='vulkan' name='W' number='1'/>",
            RowCode::BadAttribute,
            b"number",
        ),
        (
            b"<feature api='vulkan' name='W:' number='1.1'/>",
            RowCode::BadAttribute,
            b"name",
        ),
        (
            b"<feature api='a,vulkan' name='W' number='1.1' apitype='x'/>",
            RowCode::ApiType,
            b"W",
        ),
        (b"<enums/>", RowCode::BadAttribute, b"name"),
        (
            b"<enums name='API Constants' bitwidth='16'/>",
            RowCode::BadAttribute,
            b"bitwidth",
        ),
    ];
    for (element, code, word) in table {
        let bad = is_bad_child(rt.alloc(), element, code, word)?;
        assert!(rt; bad);
    }
    Ok(())
}

/// Whether an extension has one bad attribute, which is this.
fn is_bad_extension(alloc: Global, element: &[u8], word: &[u8]) -> Result<bool, Fail> {
    let front = b"<registry><extensions>";
    let back = b"</extensions></registry>";
    is_at_fault(alloc, front, element, back, RowCode::BadAttribute, word)
}

#[test]
fn extensions_are_tried(rt: HostRuntime) -> Result<(), Fail> {
    let table: [(&[u8], &[u8]); 4] = [
        (b"<extension name='X' number='1'/>", b"supported"),
        (b"<extension name='X' supported='vulkan'/>", b"number"),
        (
            b"<extension name='X' number='-1' supported='vulkan'/>",
            b"number",
        ),
        (b"<extension number='1' supported='a,vulkan'/>", b"name"),
    ];
    for (element, word) in table {
        let bad = is_bad_extension(rt.alloc(), element, word)?;
        assert!(rt; bad);
    }
    Ok(())
}

#[test]
fn a_root_of_another_name_is_at_fault(rt: HostRuntime) -> Result<(), Fail> {
    let bad = is_at_fault(
        rt.alloc(),
        b"",
        b"<types/>",
        b"",
        RowCode::BadAttribute,
        b"registry",
    )?;
    assert!(rt; bad);
    Ok(())
}
