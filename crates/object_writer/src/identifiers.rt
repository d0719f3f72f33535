ghost use Rattle.std.specs.Prelude.{◌≡◌, ◌<◌, ◌+◌, ◌++◌, ◌∷◌, [], IfOk};
ghost use Rattle.object_formats.specs.Format.{several};
ghost use Rattle.object_formats.specs.Objects as objects;
ghost use Rattle.object_formats.specs.Tables as spec;
ghost use Rattle.object_formats.specs.View as view;
ghost use Rattle.object_writer.specs.Writing.{Writes};

use crate::writer::Writer;
use object_formats::{Code, TypeIdentifier, any_large, own_kind};
use type_trees::HashId;
use xt_lists::{OutOfMemory, Row};
use xt_shapes::Prim;

/// The code of an identifier.
#[tactic(auto, using(object_formats::proofs::Views::identifier_rules))]
fn code(ty: &TypeIdentifier) -> Code
    ensures { result ≡ spec.code (view.identifier ty.now) }
{
    match ty {
        TypeIdentifier::None => Code::Hash,
        TypeIdentifier::Prim(prim) => Code::Prim(*prim),
        TypeIdentifier::Str { bound } => Code::Str(256 <= *bound),
        TypeIdentifier::Seq { bound, .. } => Code::Seq(256 <= *bound),
        TypeIdentifier::Array { dims, .. } => Code::Array(any_large(dims.as_slice())),
        TypeIdentifier::Map { bound, .. } => Code::Map(256 <= *bound),
        TypeIdentifier::Hash(_) => Code::Hash,
    }
}

fn prim_octet(prim: Prim) -> u8
    ensures { result ≡ spec.prim_octet prim }
{
    match prim {
        Prim::Boolean => 0x01,
        Prim::Byte => 0x02,
        Prim::Int16 => 0x03,
        Prim::Int32 => 0x04,
        Prim::Int64 => 0x05,
        Prim::Uint16 => 0x06,
        Prim::Uint32 => 0x07,
        Prim::Uint64 => 0x08,
        Prim::Float32 => 0x09,
        Prim::Float64 => 0x0A,
        Prim::Int8 => 0x0C,
        Prim::Uint8 => 0x0D,
        Prim::Char8 => 0x10,
    }
}

fn form(small: u8, large: bool) -> u8
    requires { small < 255 }
    ensures { result ≡ small + spec.wide large }
{
    if large { small + 1 } else { small }
}

#[tactic(auto, unfolding(object_formats::specs::Tables::code_octet))]
fn code_octet(complete: bool, code: Code) -> u8
    ensures { result ≡ spec.code_octet complete code }
{
    match code {
        Code::Prim(prim) => prim_octet(prim),
        Code::Str(large) => form(0x70, large),
        Code::Seq(large) => form(0x80, large),
        Code::Array(large) => form(0x90, large),
        Code::Map(large) => form(0xA0, large),
        Code::Hash => own_kind(complete),
    }
}

impl Writer {
    /// What stands before the element of a sequence, or before the value of a map.
    fn bounded_head(
        &mut self,
        complete: bool,
        large: bool,
        ek: u8,
        flags: u16,
        bound: u32,
    ) -> Result<(), OutOfMemory>
        ensures { Writes (spec.head complete (spec.fits large) (spec.bound large)) (ek, (flags, bound)) self.old result self.new }
    {
        self.octet(ek)?;
        self.half(flags)?;
        self.bound(large, bound)
    }

    fn array_head(
        &mut self,
        complete: bool,
        large: bool,
        ek: u8,
        flags: u16,
        dims: &Row<u32>,
    ) -> Result<(), OutOfMemory>
        ensures { Writes (spec.head complete (spec.fit_all large) (several (spec.bound large))) (ek, (flags, dims.now)) self.old result self.new }
    {
        self.octet(ek)?;
        self.half(flags)?;
        self.several(large, dims)
    }

    /// An octet that says how to read on.
    pub(crate) fn tag(&mut self, octet: u8) -> Result<(), OutOfMemory>
        ensures { IfOk result (λ u. self.new ≡ self.old ++ octet ∷ []) }
    {
        self.raw(&[octet])
    }

    #[tactic(auto, using(object_formats::proofs::Views::identifier_rules), unfolding(object_formats::specs::Format::raw))]
    pub(crate) fn hash(&mut self, complete: bool, hash: &HashId) -> Result<(), OutOfMemory>
        ensures { Writes (spec.hashed complete) (objects.hash hash.now) self.old result self.new }
    {
        if hash.kind == own_kind(complete) {
            self.raw(&hash.hash)
        } else {
            Ok(())
        }
    }

    /// What follows the first octet.
    #[cycle(nested)]
    #[tactic(auto, using(object_formats::proofs::Views::identifier_rules))]
    fn branch(&mut self, complete: bool, deep: u8, ty: &TypeIdentifier) -> Result<(), OutOfMemory>
        ensures { Writes (spec.branch complete (spec.nested complete deep) (spec.code (view.identifier ty.now))) (view.identifier ty.now) self.old result self.new }
    {
        match ty {
            TypeIdentifier::None | TypeIdentifier::Prim(_) => Ok(()),
            TypeIdentifier::Str { bound } => self.bound(256 <= *bound, *bound),
            TypeIdentifier::Seq {
                ek,
                flags,
                bound,
                element,
            } => {
                self.bounded_head(complete, 256 <= *bound, *ek, *flags, *bound)?;
                self.nested(complete, deep, element)
            }
            TypeIdentifier::Array {
                ek,
                flags,
                dims,
                element,
            } => {
                self.array_head(complete, any_large(dims.as_slice()), *ek, *flags, dims)?;
                self.nested(complete, deep, element)
            }
            TypeIdentifier::Map {
                ek,
                flags,
                bound,
                value,
                key_flags,
                key,
            } => {
                self.bounded_head(complete, 256 <= *bound, *ek, *flags, *bound)?;
                self.nested(complete, deep, value)?;
                self.half(*key_flags)?;
                self.nested(complete, deep, key)
            }
            TypeIdentifier::Hash(hash) => self.hash(complete, hash),
        }
    }

    /// An identifier that nests at most so deep.
    #[cycle(nested)]
    #[tactic(auto, using(object_formats::proofs::Views::identifier_rules), unfolding(object_formats::specs::Tables::nested, object_formats::specs::Tables::too_deep))]
    fn nested(&mut self, complete: bool, deep: u8, ty: &TypeIdentifier) -> Result<(), OutOfMemory>
        ensures { Writes (spec.nested complete deep) (view.identifier ty.now) self.old result self.new }
    {
        if deep == 0 {
            return Ok(());
        }
        self.tag(code_octet(complete, code(ty)))?;
        self.branch(complete, deep - 1, ty)
    }

    #[tactic(auto, using(object_formats::proofs::Views::identifier_rules), unfolding(object_formats::specs::Tables::identifier))]
    pub(crate) fn identifier(
        &mut self,
        complete: bool,
        ty: &TypeIdentifier,
    ) -> Result<(), OutOfMemory>
        ensures { Writes (spec.identifier complete) (view.identifier ty.now) self.old result self.new }
    {
        self.nested(complete, 16, ty)
    }
}
