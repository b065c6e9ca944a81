use crate::forms::{Forms, Given};
use crate::read_forms;
use reg_reader::{Element, read_markup};
use reg_registry::Shape;
use std::alloc::Global;
use std::test::Fail;

const SMALL: &[u8] = b"<registry>\
<tags><tag name='KHR'/></tags>\
<types><type category='enum' name='E'/></types>\
<enums name='API Constants'><enum name='C' value='(~0U)'/></enums>\
<enums name='E' type='bitmask' bitwidth='64'><enum name='A' bitpos='3'/><enum name='B' alias='A'/></enums>\
<enums name='F'><enum/></enums>\
<feature api='vulkan' name='V' number='1.2'><require><type name='E'/><enum name='C'/></require></feature>\
<feature api='other' name='W'/>\
<extensions>\
<extension name='X' number='7' supported='vulkan' depends='V'>\
<require depends='V,W'><enum name='D' offset='2' dir='-' extends='E'/><enum name='N' value='1'/></require>\
<remove><enum name='A'/></remove>\
</extension>\
<extension name='Y' supported='disabled'/>\
</extensions>\
</registry>";

fn forms_in(alloc: Global) -> Result<Forms, Fail> {
    let bytes = SMALL;
    if bytes.len() > 1_000_000 {
        return Err(Fail::from("too long"));
    }
    let tree = read_markup(alloc, bytes)?;
    Ok(read_forms(alloc, &Element::root(bytes, &tree), b"vulkan")?)
}

#[test]
fn a_small_registry_is_sorted_into_lists(rt: HostRuntime) -> Result<(), Fail> {
    let forms = forms_in(rt.alloc())?;
    assert_eq!(rt; forms.faults.as_slice().len(), 0);
    assert_eq!(rt; forms.tags.as_slice().len(), 1);
    assert_eq!(rt; forms.declarations.as_slice().len(), 3);
    assert_eq!(rt; forms.groups.as_slice().len(), 2);
    assert_eq!(rt; forms.enumerants.as_slice().len(), 3);
    assert_eq!(rt; forms.options.as_slice().len(), 2);
    assert_eq!(rt; forms.blocks.as_slice().len(), 3);
    assert_eq!(rt; forms.entries.as_slice().len(), 5);
    assert_eq!(rt; forms.texts.as_slice().len(), 2);
    Ok(())
}

/// How the value of the enumerant at a place is given.
fn is_given_so(given: &Given, place: usize) -> bool {
    match given {
        Given::Bit { position } => place == 0 && *position == 3,
        Given::Alias { name } => place == 1 && name.as_slice() == b"A".as_slice(),
        Given::Offset {
            extension,
            offset,
            negative,
        } => place == 2 && *extension == 7 && *offset == 2 && *negative,
        Given::Literal { .. } => false,
    }
}

#[test]
fn values_are_given_in_four_ways(rt: HostRuntime) -> Result<(), Fail> {
    let forms = forms_in(rt.alloc())?;
    for (place, enumerant) in forms.enumerants.as_slice().iter().enumerate() {
        let so = is_given_so(&enumerant.given, place);
        assert!(rt; so);
    }
    Ok(())
}

#[test]
fn options_own_their_blocks(rt: HostRuntime) -> Result<(), Fail> {
    let forms = forms_in(rt.alloc())?;
    let owners = [0, 1, 1];
    for (place, block) in forms.blocks.as_slice().iter().enumerate() {
        assert!(rt; place < 3);
        assert_eq!(rt; block.owner, owners[place]);
        assert_eq!(rt; block.adds, place < 2);
    }
    Ok(())
}

#[test]
fn a_mask_has_a_width(rt: HostRuntime) -> Result<(), Fail> {
    let forms = forms_in(rt.alloc())?;
    let groups = forms.groups.as_slice();
    assert!(rt; groups.len() == 2);
    assert_eq!(rt; groups[0].shape, Shape::List);
    assert_eq!(rt; groups[1].shape, Shape::Mask64);
    Ok(())
}
