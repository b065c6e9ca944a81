use crate::markup::Part;

/// Characters that are being read: where they begin, and where the reference begins that is still open.
#[derive(Clone, Copy)]
pub struct Run {
    pub from: u32,
    pub reference: Option<u32>,
}

/// What the next byte belongs to.
#[derive(Clone, Copy)]
pub enum Phase {
    /// What stands before or after the root.
    Outside,
    /// Characters in an element.
    Text(Run),
    /// Markup of which the `<` was read.
    Markup,
    /// A comment, from its `<` on.
    Comment(u32),
    /// The declaration.
    Declaration,
    /// The name of an element, which begins at this place.
    Name(u32),
    /// A start tag, after white space.
    Tag,
    /// The name of an attribute, which begins at this place.
    Attribute(u32),
    /// What stands between an attribute's name and its `=`.
    Equals(Part),
    /// What stands between an attribute's `=` and its value.
    Quote(Part),
    /// An attribute's value: the attribute's name, the quote, and the value so far.
    Value(Part, u8, Run),
    /// What follows an attribute's value.
    ValueEnd,
    /// The `>` of a start tag that ends its element.
    Slash,
    /// The name in an end tag, which begins at this place.
    EndName(u32),
    /// An end tag, after its name and white space.
    EndWhite,
}

/// What a byte does.
#[derive(Clone, Copy)]
pub enum Act {
    /// It leads to another phase, and nothing else.
    Go(Phase),
    /// It ends the characters that began at this place.
    Cut(u32),
    /// It ends the name of an element, which began at this place.
    Open(u32, Phase),
    /// It ends the value, which began at this place, of an attribute of this name.
    Attribute(Part, u32),
    /// It ends an element.
    Close,
    /// It begins an element that is nested too deep.
    TooDeep,
}
