//! The kinds of types that the rules ask for.
ghost use Rattle.std.specs.Prelude.{◌≡◌};
ghost use Rattle.vu_implicit.specs.Parameters.{is_bitmask, is_enum, is_function, is_handle, is_structure};
ghost use Rattle.vu_implicit.specs.Statements.{has_statements_kind};
ghost use Rattle.vu_implicit.specs.Types.{is_struct};

use reg_registry::Kind;

pub(crate) fn is_struct(kind: Kind) -> bool
    ensures { result ≡ is_struct kind }
{
    matches!(kind, Kind::Struct)
}

/// Whether a name of this kind has statements: a struct or a command.
pub(crate) fn has_statements_kind(kind: Kind) -> bool
    ensures { result ≡ has_statements_kind kind }
{
    matches!(kind, Kind::Struct | Kind::Command)
}

pub(crate) fn is_handle(kind: Kind) -> bool
    ensures { result ≡ is_handle kind }
{
    matches!(kind, Kind::Handle)
}

pub(crate) fn is_enum(kind: Kind) -> bool
    ensures { result ≡ is_enum kind }
{
    matches!(kind, Kind::EnumType)
}

pub(crate) fn is_bitmask(kind: Kind) -> bool
    ensures { result ≡ is_bitmask kind }
{
    matches!(kind, Kind::Bitmask)
}

/// Whether a type of this kind has members.
pub(crate) fn is_structure(kind: Kind) -> bool
    ensures { result ≡ is_structure kind }
{
    matches!(kind, Kind::Struct | Kind::Union)
}

pub(crate) fn is_function(kind: Kind) -> bool
    ensures { result ≡ is_function kind }
{
    matches!(kind, Kind::FuncPointer)
}
