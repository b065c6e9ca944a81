use sqlite_items::Items;
use thiserror::Error;

/// A part of the bytes that were read: those from one place up to another, which isn't part of it.
#[derive(Clone, Copy, Debug, PartialEq, Eq)]
pub struct Part {
    pub from: u32,
    pub to: u32,
}

/// A piece of markup, with places in the bytes that were read.
#[derive(Debug, Drop)]
pub enum Node {
    /// An element: the place of its `<`, its name, the name and value of each attribute, and what stands between its
    /// tags. The values are given as they are spelled, without their quotes.
    Element {
        at: u32,
        name: Part,
        attributes: Items<(Part, Part)>,
        children: Items<Node>,
    },
    /// Characters between two pieces of markup, as they are spelled.
    Chars(Part),
}

/// Why bytes weren't read as markup.
#[derive(Clone, Copy, Debug, PartialEq, Eq, Error)]
pub enum MarkupFault {
    /// No markup begins with the bytes up to this place and the one at it, or the bytes end there before the markup does.
    #[error("no markup from byte {at} on")]
    BadMarkup { at: u32 },
    /// The element whose `<` stands at this place lies in 32 others.
    #[error("an element at byte {at} is nested too deep")]
    TooDeep { at: u32 },
    #[error("out of memory")]
    Memory,
}
