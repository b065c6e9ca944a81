//! What is true of declarations, whatever wrote them: the law does nothing, and its clause is what is proved.
ghost use Rattle.hdr_writer.specs.Frames.{EnumTypesAreFramed};

/// A law: at each choice the declaration of an enum type is its front, the lines of its values that stand, in order, and its back.
pub fn enum_types_are_framed()
    ensures { EnumTypesAreFramed }
{}
