//! What a declared name is, and what the values of an enum type are.

/// What a declared name is: a type, by the attribute `category` of the registry manual, a constant, or a command.
#[derive(Clone, Copy, Debug, PartialEq, Eq)]
pub enum Kind {
    /// A type without a category, which the registry doesn't define.
    External,
    Include,
    Define,
    Base,
    Bitmask,
    Handle,
    EnumType,
    FuncPointer,
    Struct,
    Union,
    Constant,
    Command,
}

/// What the values of an enum type are. All other kinds are `Plain`.
#[derive(Clone, Copy, Debug, PartialEq, Eq)]
pub enum Shape {
    Plain,
    /// Numbers of 32 bits with a sign.
    List,
    /// Flags of 32 bits.
    Mask32,
    /// Flags of 64 bits.
    Mask64,
}
