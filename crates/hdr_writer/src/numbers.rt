//! The numbers of values.
ghost use Rattle.std.specs.Prelude.{◌≡◌, ◌++◌, IfOk, codes, true};
ghost use Rattle.std.specs.Fmt.{digits, signed_decimal};
ghost use Rattle.reg_registry.specs.declared.kinds.Shape.TheVariants.{Mask64};
ghost use Rattle.hdr_writer.specs.Numbers.{eight_at_least, mask_number, number_text};

use reg_registry::Shape;
use std::alloc::Global;
use vkb_bytes::{Bytes, Memory};

/// The number of a value of an enum type of this shape.
pub(crate) fn number_text(alloc: Global, shape: Shape, number: i128) -> Result<Bytes, Memory>
    ensures { IfOk result (λ text. text ≡ number_text shape number) }
{
    match shape {
        Shape::Mask32 => mask_number(alloc, number),
        Shape::Mask64 => wide_number(alloc, number),
        Shape::List | Shape::Plain => decimal(alloc, number),
    }
}

/// A number of 64 bits.
fn wide_number(alloc: Global, number: i128) -> Result<Bytes, Memory>
    ensures { IfOk result (λ text. text ≡ number_text Mask64 number) }
{
    let mut text = mask_number(alloc, number)?.into_vec();
    text.extend_from_slice(b"ULL")?;
    Ok(Bytes::from_vec(text))
}

/// The number of a mask.
fn mask_number(alloc: Global, number: i128) -> Result<Bytes, Memory>
    ensures { IfOk result (λ text. text ≡ mask_number number) }
{
    if 0 < number && number <= i128::from(u64::MAX) {
        hexadecimal(alloc, number as u64)
    } else {
        decimal(alloc, number)
    }
}

/// Hexadecimal digits in upper case, at least eight.
fn hexadecimal(alloc: Global, number: u64) -> Result<Bytes, Memory>
    ensures { IfOk result (λ text. text ≡ codes "0x" ++ eight_at_least (digits 16 true number)) }
{
    Ok(Bytes::from_vec(format!(in alloc; "0x{number:08X}")?.into_bytes()))
}

/// Decimal digits, behind `-` where the number is negative.
fn decimal(alloc: Global, number: i128) -> Result<Bytes, Memory>
    ensures { IfOk result (λ text. text ≡ signed_decimal number) }
{
    Ok(Bytes::from_vec(format!(in alloc; "{number}")?.into_bytes()))
}
