//! What is found under a name.
use super::*;
use reg_forms::Sort;
use reg_registry::Shape;

const NAMES: &[u8] = b"<registry>\
<types><type name='VkT'/><type category='enum' name='VkE'/><type category='enum' name='VkF' alias='VkE'/></types>\
<enums name='API Constants'><enum name='VK_C' value='1'/></enums>\
<enums name='VkE' type='bitmask' bitwidth='64'><enum name='VK_B' bitpos='1'/><enum name='VK_A' bitpos='0'/><enum name='VK_B' bitpos='1'/></enums>\
<commands><command><proto><type>VkT</type> <name>vkDo</name></proto></command></commands>\
</registry>";

#[test]
fn names_are_found(rt: HostRuntime) -> Result<(), Fail> {
    let alloc = rt.alloc();
    let forms = forms_in(alloc, NAMES)?;
    ask_for_names(&rt, alloc, &forms)
}

/// What is found under names, of what elements say.
fn ask_for_names(rt: &impl Abort, alloc: Global, forms: &Forms) -> Result<(), Fail> {
    let tables = Tables::new(alloc, forms)?;
    first_of_a_name_is_found(rt, &tables);
    name_is_known_as_what_it_is(rt, &tables);
    only_enum_types_have_a_shape(rt, &tables);
    Ok(())
}

fn first_of_a_name_is_found(rt: &impl Abort, tables: &Tables) {
    assert_eq!(rt; tables.declared_at(b"VkE"), Some(1));
    assert_eq!(rt; tables.declared_at(b"VkN"), None);
    assert_eq!(rt; tables.enumerant_at(b"VK_B"), Some(0));
    assert_eq!(rt; tables.enumerant_at(b"VK_A"), Some(1));
    assert!(rt; tables.enumerant(b"VK_C").is_none());
    match tables.group(b"VkE") {
        Some(group) => assert_eq!(rt; group.shape, Shape::Mask64),
        None => assert!(rt; false),
    }
}

/// A name is known as something of a sort, or it isn't.
fn known(rt: &impl Abort, tables: &Tables, name: &[u8], sort: Sort, is_it: bool) {
    assert_eq!(rt; tables.is_known(sort, name), is_it);
}

fn name_is_known_as_what_it_is(rt: &impl Abort, tables: &Tables) {
    known(rt, tables, b"VkT", Sort::Type, true);
    known(rt, tables, b"VkT", Sort::Command, false);
    known(rt, tables, b"VK_C", Sort::Constant, true);
    known(rt, tables, b"VK_C", Sort::Value, true);
    known(rt, tables, b"VK_A", Sort::Value, true);
    known(rt, tables, b"VK_A", Sort::Constant, false);
    known(rt, tables, b"vkDo", Sort::Command, true);
}

/// What is declared under a name has values of this shape.
fn shaped(rt: &impl Abort, tables: &Tables, name: &[u8], shape: Shape) {
    match tables.declaration(name) {
        Some(declaration) => assert_eq!(rt; tables.shape_of(declaration), shape),
        None => assert!(rt; false),
    }
}

fn only_enum_types_have_a_shape(rt: &impl Abort, tables: &Tables) {
    shaped(rt, tables, b"VkT", Shape::Plain);
    shaped(rt, tables, b"VkE", Shape::Mask64);
    shaped(rt, tables, b"VkF", Shape::List);
    assert_eq!(rt; tables.shape_named(b"VkN"), Shape::List);
}
