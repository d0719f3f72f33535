ghost use Rattle.std.specs.Prelude.{◌≡◌, ◌++◌, decimal, OnOk};
ghost use Rattle.std.specs.Fmt.{signed_decimal};
ghost use Rattle.idl_printer.specs.Words as spec;

use itoa::Buffer;
use type_trees::Name;
use xt_lists::{OutOfMemory, Text};
use xt_shapes::{Ext, Prim, Try};

pub(crate) fn number(out: &mut Text, n: u32) -> Result<(), OutOfMemory>
    ensures { OnOk result (out.new ≡ out.old ++ decimal n) }
{
    let mut buffer = Buffer::new();
    out.append(buffer.format(n).as_bytes())
}

pub(crate) fn signed(out: &mut Text, n: i32) -> Result<(), OutOfMemory>
    ensures { OnOk result (out.new ≡ out.old ++ signed_decimal n) }
{
    let mut buffer = Buffer::new();
    out.append(buffer.format(n).as_bytes())
}

pub(crate) fn prim_word(kind: Prim) -> &'static [u8]
    ensures { result.now ≡ spec.prim_text kind }
{
    match kind {
        Prim::Boolean => b"boolean",
        Prim::Byte => b"octet",
        Prim::Char8 => b"char",
        Prim::Int8 => b"int8",
        Prim::Uint8 => b"uint8",
        Prim::Int16 => b"short",
        Prim::Uint16 => b"unsigned short",
        Prim::Int32 => b"long",
        Prim::Uint32 => b"unsigned long",
        Prim::Int64 => b"long long",
        Prim::Uint64 => b"unsigned long long",
        Prim::Float32 => b"float",
        Prim::Float64 => b"double",
    }
}

pub(crate) fn try_word(tc: Try) -> &'static [u8]
    ensures { result.now ≡ spec.try_text tc }
{
    match tc {
        Try::Discard => b"",
        Try::UseDefault => b"@try_construct(USE_DEFAULT) ",
        Try::Trim => b"@try_construct(TRIM) ",
    }
}

pub(crate) fn ext_word(ext: Ext) -> &'static [u8]
    ensures { result.now ≡ spec.ext_text ext }
{
    match ext {
        Ext::Final => b"@final ",
        Ext::Appendable => b"@appendable ",
        Ext::Mutable => b"@mutable ",
    }
}

pub(crate) fn name_octets(name: &Name) -> &[u8]
    ensures { result.now ≡ spec.name_text name.now }
{
    match name {
        Name::Full(text) => text.octets(),
        Name::Hashed(_) => &[],
    }
}

pub(crate) fn append_if(out: &mut Text, is_set: bool, text: &[u8]) -> Result<(), OutOfMemory>
    ensures { OnOk result (out.new ≡ out.old ++ spec.text_if is_set text.now) }
{
    if is_set { out.append(text) } else { Ok(()) }
}

#[tactic(auto, using(crate::proofs::Joins::joins))]
pub(crate) fn id_note(out: &mut Text, id: u32) -> Result<(), OutOfMemory>
    ensures { OnOk result (out.new ≡ out.old ++ spec.id_text id) }
{
    out.append(b"@id(")?;
    number(out, id)?;
    out.append(b") ")
}

#[tactic(auto, using(crate::proofs::Joins::joins))]
pub(crate) fn string_type(out: &mut Text, bound: u32) -> Result<(), OutOfMemory>
    ensures { OnOk result (out.new ≡ out.old ++ spec.string_text bound) }
{
    if bound == 0 {
        return out.append(b"string");
    }
    out.append(b"string<")?;
    number(out, bound)?;
    out.append(b">")
}

/// The bound of a collection, if it has one, and its end.
#[tactic(auto, using(crate::proofs::Joins::joins))]
pub(crate) fn last_bound(out: &mut Text, bound: u32) -> Result<(), OutOfMemory>
    ensures { OnOk result (out.new ≡ out.old ++ spec.bound_text bound) }
{
    if bound == 0 {
        return out.append(b">");
    }
    out.append(b", ")?;
    number(out, bound)?;
    out.append(b">")
}
