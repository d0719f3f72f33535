ghost use Rattle.std.specs.Prelude.{◌≡◌, ◌<◌, map, IfOk};
ghost use Rattle.object_walks.specs.Resolving as spec;
ghost use Rattle.xt_shapes.specs.Kinds.{same_ext};

use object_formats::{ObjectFlag, ObjectLiteral};
use std::alloc::Global;
use type_trees::{Flag, Literal};
use type_values::copy_name;
use xt_lists::{OutOfMemory, Row};
use xt_shapes::{Ext, Try};

/// Whether a flag is set; it is a power of two.
pub fn has_flag(flags: u16, flag: u16) -> bool
    requires { 0 < flag }
    ensures { result ≡ spec.bit flags flag }
{
    (flags / flag) % 2 == 1
}

/// What becomes of a value that can't be constructed, from the lowest two flags.
pub fn try_of(flags: u16) -> Try
    ensures { result ≡ spec.try_of flags }
{
    match flags % 4 {
        1 => Try::Discard,
        2 => Try::UseDefault,
        _ => Try::Trim,
    }
}

/// The extensibility, from the lowest three flags.
pub fn ext_of(flags: u16) -> Ext
    ensures { result ≡ spec.ext_of flags }
{
    match flags % 8 {
        1 => Ext::Final,
        2 => Ext::Appendable,
        _ => Ext::Mutable,
    }
}

/// Whether the flags are those of this extensibility.
pub(crate) fn has_ext(flags: u16, ext: Ext) -> bool
    ensures { result ≡ same_ext (spec.ext_of flags) ext }
{
    ext_of(flags) == ext
}

/// A number of bits or a position, in one octet.
pub fn in_octet(number: u16) -> u8
    ensures { result ≡ spec.in_octet number }
{
    if number < 255 { number as u8 } else { 255 }
}

pub(crate) fn literals_of(
    alloc: Global,
    literals: &[ObjectLiteral],
) -> Result<Row<Literal>, OutOfMemory>
    ensures { IfOk result (λ row. row ≡ map spec.literal_of literals.now) }
{
    let mut row = Row::new(alloc);
    for literal in literals {
        row.push(Literal {
            name: copy_name(alloc, &literal.name)?,
            value: literal.value,
            is_default: has_flag(literal.flags, 0x40),
        })?;
    }
    Ok(row)
}

pub(crate) fn flags_of(alloc: Global, flags: &[ObjectFlag]) -> Result<Row<Flag>, OutOfMemory>
    ensures { IfOk result (λ row. row ≡ map spec.flag_of flags.now) }
{
    let mut row = Row::new(alloc);
    for flag in flags {
        row.push(Flag {
            name: copy_name(alloc, &flag.name)?,
            position: in_octet(flag.position),
        })?;
    }
    Ok(row)
}
