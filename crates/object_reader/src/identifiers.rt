ghost use Rattle.std.specs.Prelude.{◌≡◌, ◌≤◌, ◌<◌, ◌+◌, ◌-◌, IfOk};
ghost use Rattle.object_formats.specs.Format.{several};
ghost use Rattle.object_formats.specs.Tables as spec;
ghost use Rattle.object_formats.specs.Format.{part, only};
ghost use Rattle.object_formats.specs.Objects.{str};
ghost use Rattle.object_formats.specs.declared.codes.Code.TheVariants as C;
ghost use Rattle.object_formats.specs.declared.faults.ObjectRule.TheVariants.{Identifier};
ghost use Rattle.object_formats.specs.View.{identifier};
ghost use Rattle.object_reader.specs.Reading.{Reads, ahead};

use crate::reader::{Reader, boxed};
use object_formats::{
    Code, Flags, ObjectFault, ObjectRule, TypeIdentifier, any_large, ek_of, is_plain, own_kind,
};
use std::alloc::Global;
use type_trees::HashId;
use xt_lists::Row;
use xt_shapes::Prim;

#[tactic(auto, unfolding(object_formats::specs::Tables::code_of, object_formats::specs::Tables::code_octet))]
fn code_of(complete: bool, octet: u8) -> Option<Code>
    ensures { result ≡ spec.code_of complete octet }
{
    match octet {
        0x01 => Some(Code::Prim(Prim::Boolean)),
        0x02 => Some(Code::Prim(Prim::Byte)),
        0x03 => Some(Code::Prim(Prim::Int16)),
        0x04 => Some(Code::Prim(Prim::Int32)),
        0x05 => Some(Code::Prim(Prim::Int64)),
        0x06 => Some(Code::Prim(Prim::Uint16)),
        0x07 => Some(Code::Prim(Prim::Uint32)),
        0x08 => Some(Code::Prim(Prim::Uint64)),
        0x09 => Some(Code::Prim(Prim::Float32)),
        0x0A => Some(Code::Prim(Prim::Float64)),
        0x0C => Some(Code::Prim(Prim::Int8)),
        0x0D => Some(Code::Prim(Prim::Uint8)),
        0x10 => Some(Code::Prim(Prim::Char8)),
        0x70 => Some(Code::Str(false)),
        0x71 => Some(Code::Str(true)),
        0x80 => Some(Code::Seq(false)),
        0x81 => Some(Code::Seq(true)),
        0x90 => Some(Code::Array(false)),
        0x91 => Some(Code::Array(true)),
        0xA0 => Some(Code::Map(false)),
        0xA1 => Some(Code::Map(true)),
        _ => {
            if octet == own_kind(complete) {
                Some(Code::Hash)
            } else {
                None
            }
        }
    }
}

impl<'a> Reader<'a> {
    fn ek(&mut self, complete: bool) -> Result<u8, ObjectFault>
        ensures { Reads (λ x. x) (spec.ek complete) (ahead self.old) result (ahead self.new) }
    {
        let place = self.at;
        let ek = self.octet()?;
        if ek != 0xF3 && ek != own_kind(complete) {
            return Err(ObjectFault::Not {
                at: place,
                rule: ObjectRule::Identifier,
            });
        }
        Ok(ek)
    }

    pub(crate) fn bound(&mut self, large: bool) -> Result<u32, ObjectFault>
        ensures { Reads (λ x. x) (spec.bound large) (ahead self.old) result (ahead self.new) }
    {
        if large {
            self.word()
        } else {
            Ok(u32::from(self.octet()?))
        }
    }

    /// What stands before a collection's element, with the bound of a sequence or map.
    fn bounded_head(&mut self, complete: bool, large: bool) -> Result<(u8, u16, u32), ObjectFault>
        ensures { Reads (λ x. (x.0, (x.1, x.2))) (spec.head complete (spec.fits large) (spec.bound large)) (ahead self.old) result (ahead self.new) }
    {
        let place = self.at.saturating_sub(1);
        let ek = self.ek(complete)?;
        let flags = self.flags(complete, Flags::Element)?;
        let bound = self.bound(large)?;
        if (256 <= bound) != large {
            return Err(ObjectFault::Not {
                at: place,
                rule: ObjectRule::Identifier,
            });
        }
        Ok((ek, flags, bound))
    }

    fn array_head(
        &mut self,
        alloc: Global,
        complete: bool,
        large: bool,
    ) -> Result<(u8, u16, Row<u32>), ObjectFault>
        ensures { Reads (λ x. (x.0, (x.1, x.2))) (spec.head complete (spec.fit_all large) (several (spec.bound large))) (ahead self.old) result (ahead self.new) }
    {
        let place = self.at.saturating_sub(1);
        let ek = self.ek(complete)?;
        let flags = self.flags(complete, Flags::Element)?;
        let dims = self.several::<u32>(alloc, large)?;
        if any_large(dims.as_slice()) != large {
            return Err(ObjectFault::Not {
                at: place,
                rule: ObjectRule::Identifier,
            });
        }
        Ok((ek, flags, dims))
    }

    #[tactic(auto, using(object_formats::proofs::Views::identifier_rules), unfolding(object_formats::specs::Format::raw))]
    pub(crate) fn hash(&mut self, complete: bool) -> Result<TypeIdentifier, ObjectFault>
        ensures { Reads identifier (spec.hashed complete) (ahead self.old) result (ahead self.new) }
    {
        let octets = self.raw(14)?;
        let mut hash = [0; 14];
        hash.copy_from_slice(octets);
        Ok(TypeIdentifier::Hash(HashId {
            kind: own_kind(complete),
            hash,
        }))
    }

    #[cycle(nested)]
    #[tactic(auto, using(object_formats::proofs::Views::identifier_rules))]
    fn sequence(
        &mut self,
        alloc: Global,
        complete: bool,
        deep: u8,
        large: bool,
    ) -> Result<TypeIdentifier, ObjectFault>
        ensures { Reads identifier (spec.branch complete (spec.nested complete deep) (C.Seq large)) (ahead self.old) result (ahead self.new) }
    {
        let place = self.at;
        let (ek, flags, bound) = self.bounded_head(complete, large)?;
        let element = self.nested(alloc, complete, deep)?;
        if ek != ek_of(complete, is_plain(&element)) {
            return Err(ObjectFault::Not {
                at: place,
                rule: ObjectRule::Identifier,
            });
        }
        let element = boxed(alloc, element)?;
        Ok(TypeIdentifier::Seq {
            ek,
            flags,
            bound,
            element,
        })
    }

    #[cycle(nested)]
    #[tactic(auto, using(object_formats::proofs::Views::identifier_rules))]
    fn array(
        &mut self,
        alloc: Global,
        complete: bool,
        deep: u8,
        large: bool,
    ) -> Result<TypeIdentifier, ObjectFault>
        ensures { Reads identifier (spec.branch complete (spec.nested complete deep) (C.Array large)) (ahead self.old) result (ahead self.new) }
    {
        let place = self.at;
        let (ek, flags, dims) = self.array_head(alloc, complete, large)?;
        let element = self.nested(alloc, complete, deep)?;
        if ek != ek_of(complete, is_plain(&element)) {
            return Err(ObjectFault::Not {
                at: place,
                rule: ObjectRule::Identifier,
            });
        }
        let element = boxed(alloc, element)?;
        Ok(TypeIdentifier::Array {
            ek,
            flags,
            dims,
            element,
        })
    }

    #[cycle(nested)]
    #[tactic(auto, using(object_formats::proofs::Views::identifier_rules))]
    fn map(
        &mut self,
        alloc: Global,
        complete: bool,
        deep: u8,
        large: bool,
    ) -> Result<TypeIdentifier, ObjectFault>
        ensures { Reads identifier (spec.branch complete (spec.nested complete deep) (C.Map large)) (ahead self.old) result (ahead self.new) }
    {
        let place = self.at;
        let (ek, flags, bound) = self.bounded_head(complete, large)?;
        let value = self.nested(alloc, complete, deep)?;
        let key_flags = self.flags(complete, Flags::Element)?;
        let key = self.nested(alloc, complete, deep)?;
        if ek != ek_of(complete, is_plain(&value) && is_plain(&key)) {
            return Err(ObjectFault::Not {
                at: place,
                rule: ObjectRule::Identifier,
            });
        }
        let value = boxed(alloc, value)?;
        let key = boxed(alloc, key)?;
        Ok(TypeIdentifier::Map {
            ek,
            flags,
            bound,
            value,
            key_flags,
            key,
        })
    }

    #[tactic(auto, using(object_formats::proofs::Views::identifier_rules))]
    fn text_type(&mut self, large: bool) -> Result<TypeIdentifier, ObjectFault>
        ensures { Reads identifier (part str spec.str_of (only (λ p. p - 1) Identifier (spec.fits large) (spec.bound large))) (ahead self.old) result (ahead self.new) }
    {
        let place = self.at.saturating_sub(1);
        let bound = self.bound(large)?;
        if (256 <= bound) != large {
            return Err(ObjectFault::Not {
                at: place,
                rule: ObjectRule::Identifier,
            });
        }
        Ok(TypeIdentifier::Str { bound })
    }

    /// An identifier that nests at most so deep.
    #[cycle(nested)]
    #[tactic(auto, using(object_formats::proofs::Views::identifier_rules), unfolding(object_formats::specs::Tables::nested, object_formats::specs::Tables::too_deep))]
    pub(crate) fn nested(
        &mut self,
        alloc: Global,
        complete: bool,
        deep: u8,
    ) -> Result<TypeIdentifier, ObjectFault>
        ensures { Reads identifier (spec.nested complete deep) (ahead self.old) result (ahead self.new) }
    {
        let place = self.at;
        let octet = self.octet()?;
        if deep == 0 {
            return Err(ObjectFault::Not {
                at: place,
                rule: ObjectRule::Identifier,
            });
        }
        match code_of(complete, octet) {
            None => Err(ObjectFault::Not {
                at: place,
                rule: ObjectRule::Identifier,
            }),
            Some(Code::Prim(prim)) => Ok(TypeIdentifier::Prim(prim)),
            Some(Code::Str(large)) => self.text_type(large),
            Some(Code::Seq(large)) => self.sequence(alloc, complete, deep - 1, large),
            Some(Code::Array(large)) => self.array(alloc, complete, deep - 1, large),
            Some(Code::Map(large)) => self.map(alloc, complete, deep - 1, large),
            Some(Code::Hash) => self.hash(complete),
        }
    }
}
