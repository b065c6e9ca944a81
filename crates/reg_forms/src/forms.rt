//! What the elements of a registry come to.
use reg_registry::{Kind, Shape};
use vkb_bytes::{Bytes, Listed};

/// What a name that is mentioned has to be.
#[derive(Clone, Copy, Debug, PartialEq, Eq)]
pub enum Sort {
    Type,
    Constant,
    Command,
    /// A constant or an enumerant.
    Value,
}

/// A name that an element mentions.
#[derive(Debug, Drop)]
pub struct Mention {
    /// The place of the element's `<`, in bytes from 0.
    pub place: u32,
    pub name: Bytes,
    pub sort: Sort,
}

/// A member of a struct or union, or a parameter.
#[derive(Debug, Drop)]
pub struct MemberForm {
    /// The place of the element's `<`, in bytes from 0.
    pub place: u32,
    pub name: Bytes,
    /// Its text, with one space for each run of white bytes.
    pub text: Bytes,
    /// The name of its type.
    pub base: Bytes,
    /// How many stars its text has.
    pub stars: usize,
    /// The attribute `values`, or nothing.
    pub values: Bytes,
    /// The attribute `len` up to the first comma, or nothing.
    pub len: Bytes,
    /// The attribute `optional` up to the first comma is `true`.
    pub optional: bool,
    /// The attribute `noautovalidity` is `true`.
    pub silent: bool,
}

/// An element that declares a type, a constant or a command.
#[derive(Debug, Drop)]
pub struct Declaration {
    /// The place of the element's `<`, in bytes from 0.
    pub place: u32,
    pub name: Bytes,
    pub kind: Kind,
    pub alias: Option<Bytes>,
    /// The text of a type that is no alias, trimmed, or the value of a constant.
    pub text: Bytes,
    /// What stands before the name in the prototype of a command or function pointer, with one space for each run of white
    /// bytes.
    pub result: Bytes,
    /// Whether there is a prototype.
    pub prototyped: bool,
    /// The attribute `returnedonly` is `true`.
    pub returned: bool,
    /// The type of a bitmask's bits.
    pub bits: Option<Bytes>,
    /// The names in `structextends`.
    pub extends: Listed<Bytes>,
    pub members: Listed<MemberForm>,
    /// All that it names and that has to be declared.
    pub mentions: Listed<Mention>,
}

/// How the value of an enumerant is given.
#[derive(Debug, Drop)]
pub enum Given {
    Literal {
        text: Bytes,
    },
    Bit {
        position: u32,
    },
    Offset {
        extension: u32,
        offset: u32,
        negative: bool,
    },
    Alias {
        name: Bytes,
    },
}

/// An element that gives an enumerant a value.
#[derive(Debug, Drop)]
pub struct EnumForm {
    /// The place of the element's `<`, in bytes from 0.
    pub place: u32,
    /// The name of its enum type.
    pub of: Bytes,
    pub name: Bytes,
    pub given: Given,
    /// Whether it stands in the type's own block.
    pub base: bool,
}

/// An `enums` block of an enum type, or of the constants.
#[derive(Debug, Drop)]
pub struct GroupForm {
    /// The place of the element's `<`, in bytes from 0.
    pub place: u32,
    pub name: Bytes,
    pub shape: Shape,
}

/// A feature or an extension.
#[derive(Debug, Drop)]
pub struct OptionForm {
    /// The place of the element's `<`, in bytes from 0.
    pub place: u32,
    pub name: Bytes,
    /// The number of a feature.
    pub version: Option<(u32, u32)>,
    /// The place of its `depends` among the texts.
    pub depends: Option<usize>,
}

/// A block of names that an option requires or removes.
#[derive(Debug, Drop)]
pub struct BlockForm {
    /// The place of the element's `<`, in bytes from 0.
    pub place: u32,
    /// The place of its feature or extension among the options.
    pub owner: usize,
    /// `require`, and not `remove`.
    pub adds: bool,
    /// The place of its `depends` among the texts.
    pub depends: Option<usize>,
}

/// A name that a block lists.
#[derive(Debug, Drop)]
pub struct EntryForm {
    /// The place of its block among the blocks.
    pub block: usize,
    pub mention: Mention,
}

/// The text of an attribute `depends`.
#[derive(Debug, Drop)]
pub struct DependsText {
    /// The place of the element's `<`, in bytes from 0.
    pub place: u32,
    pub text: Bytes,
}

/// What can be wrong with a registry, in the order in which faults of one place are told.
#[derive(Clone, Copy, Debug, PartialEq, Eq)]
pub enum RowCode {
    BadAttribute,
    ApiType,
    BadExpression,
    DuplicateName,
    UnknownName,
    ValueRange,
    ValueClash,
    AliasCircle,
    NameLimit,
}

/// Something that is wrong with a registry.
#[derive(Debug, Drop)]
pub struct Fault {
    pub code: RowCode,
    /// The place of the `<` of the element that is wrong, in bytes from 0.
    pub at: u32,
    pub word: Bytes,
}

/// What the elements of a registry come to that count for an API, each list in the order of the text.
#[derive(Debug, Drop)]
pub struct Forms {
    pub tags: Listed<Bytes>,
    pub declarations: Listed<Declaration>,
    pub groups: Listed<GroupForm>,
    pub enumerants: Listed<EnumForm>,
    pub options: Listed<OptionForm>,
    pub blocks: Listed<BlockForm>,
    pub entries: Listed<EntryForm>,
    pub texts: Listed<DependsText>,
    /// What is mentioned by elements that declare nothing.
    pub mentions: Listed<Mention>,
    /// What is wrong with an element by itself.
    pub faults: Listed<Fault>,
}
