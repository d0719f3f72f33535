//! Types that break a rule which the grammar of IDL already keeps, and values that JSON has no words for.
use dynamic_data::{ValueFault, from_json, to_json};
use std::alloc::Global;
use std::test::Fail;
use type_rules::check_type;
use type_trees::sizes::capped_weight;
use type_trees::{
    AliasType, ArrayType, Base, Case, Elem, EnumType, Flag, Literal, MaskType, Member, Name,
    SeqType, StructType, UnionType, Value, XType,
};
use type_values::has_type;
use xt_lists::{OutOfMemory, Row, Text};
use xt_shapes::{Ext, Prim, Try};

type Made<T> = Result<T, OutOfMemory>;

fn named(alloc: Global, text: &str) -> Made<Name> {
    Ok(Name::Full(Text::from_octets(alloc, text.as_bytes())?))
}

fn sequence(alloc: Global, ty: XType) -> Made<XType> {
    let tc = Try::Discard;
    let kind = SeqType {
        bound: 0,
        elem: Elem { ty, tc },
    };
    Ok(XType::Seq(Box::new(alloc, kind)?))
}

fn array_of_none(alloc: Global) -> Made<XType> {
    let mut dims = Row::new(alloc);
    dims.push(u32::MAX)?;
    dims.push(0)?;
    let kind = ArrayType {
        dims,
        elem: Elem {
            ty: XType::Prim(Prim::Byte),
            tc: Try::Discard,
        },
    };
    Ok(XType::Array(Box::new(alloc, kind)?))
}

fn alias(alloc: Global, name: &str) -> Made<XType> {
    let name = Some(Text::from_octets(alloc, name.as_bytes())?);
    let ty = XType::Prim(Prim::Int32);
    Ok(XType::Alias(Box::new(alloc, AliasType { name, ty })?))
}

fn member(id: u32, name: Name) -> Member {
    Member {
        id,
        name,
        ty: XType::Prim(Prim::Int32),
        tc: Try::Discard,
        optional: false,
        must_understand: false,
        key: false,
    }
}

fn base(alloc: Global, count: u32) -> Made<Base> {
    Ok(Base {
        name: Some(Text::from_octets(alloc, b"geo::Base")?),
        nested: false,
        hashed_ids: false,
        count,
    })
}

fn structure(alloc: Global, bases: Row<Base>, members: Row<Member>) -> Made<XType> {
    let kind = StructType {
        name: None,
        ext: Ext::Appendable,
        nested: false,
        hashed_ids: false,
        bases,
        members,
    };
    Ok(XType::Struct(Box::new(alloc, kind)?))
}

fn empty(alloc: Global) -> Made<XType> {
    structure(alloc, Row::new(alloc), Row::new(alloc))
}

/// Two members, and two bases with these counts of members.
fn with_bases(alloc: Global, first: u32, second: u32) -> Made<XType> {
    let mut bases = Row::new(alloc);
    bases.push(base(alloc, first)?)?;
    bases.push(base(alloc, second)?)?;
    let mut members = Row::new(alloc);
    members.push(member(0, named(alloc, "a")?))?;
    members.push(member(1, named(alloc, "b")?))?;
    structure(alloc, bases, members)
}

/// One member, whose name is the hash of `color`.
fn hashed(alloc: Global) -> Made<XType> {
    let mut members = Row::new(alloc);
    members.push(member(0, Name::Hashed(0xdfa5_dd70)))?;
    structure(alloc, Row::new(alloc), members)
}

/// An enumeration of one literal, 5.
fn enumeration(alloc: Global) -> Made<XType> {
    let mut literals = Row::new(alloc);
    literals.push(Literal {
        name: named(alloc, "RED")?,
        value: 5,
        is_default: false,
    })?;
    let kind = EnumType {
        name: None,
        ext: Ext::Final,
        bits: 8,
        literals,
    };
    Ok(XType::Enum(Box::new(alloc, kind)?))
}

/// A bitmask of 64 bits, with the last of its flags.
fn bitmask(alloc: Global) -> Made<XType> {
    let mut flags = Row::new(alloc);
    flags.push(Flag {
        name: named(alloc, "LAST")?,
        position: 63,
    })?;
    let kind = MaskType {
        name: None,
        bits: 64,
        flags,
    };
    Ok(XType::Mask(Box::new(alloc, kind)?))
}

/// One case, of this label.
fn cases(alloc: Global, label: i32) -> Made<Row<Case>> {
    let mut labels = Row::new(alloc);
    labels.push(label)?;
    let mut cases = Row::new(alloc);
    cases.push(Case {
        id: 1,
        name: named(alloc, "c")?,
        ty: XType::Prim(Prim::Int32),
        tc: Try::Discard,
        labels,
        is_default: false,
    })?;
    Ok(cases)
}

/// A union over that enumeration, with a case of this label.
fn union(alloc: Global, label: i32) -> Made<XType> {
    let kind = UnionType {
        name: None,
        ext: Ext::Final,
        nested: false,
        hashed_ids: false,
        disc: enumeration(alloc)?,
        disc_key: false,
        cases: cases(alloc, label)?,
    };
    Ok(XType::Union(Box::new(alloc, kind)?))
}

/// The rule that the type breaks, and where.
fn fault_of(alloc: Global, ty: &XType) -> Made<String> {
    match check_type(ty) {
        Ok(()) => Ok(String::from_str(alloc, "valid")?),
        Err(fault) => Ok(format!(in alloc; "V{} {}", fault.rule, fault.node)?),
    }
}

/// Whether this is said of a type.
fn is_judged(alloc: Global, ty: &XType, want: &str) -> bool {
    match fault_of(alloc, ty) {
        Ok(told) => told.as_str() == want,
        Err(_) => false,
    }
}

/// Whether this is said of a type that was made.
fn says(alloc: Global, made: Made<XType>, want: &str) -> bool {
    match made {
        Ok(ty) => is_judged(alloc, &ty, want),
        Err(_) => false,
    }
}

fn sequence_of_alias(alloc: Global) -> Made<XType> {
    sequence(alloc, alias(alloc, "geo:P")?)
}

#[test]
fn types_that_no_text_declares(rt: HostRuntime) {
    let alloc = rt.alloc();
    assert!(rt; says(alloc, sequence_of_alias(alloc), "V1 /[]"));
    assert!(rt; says(alloc, empty(alloc), "V4 /"));
    assert!(rt; says(alloc, array_of_none(alloc), "V7 /"));
    assert!(rt; says(alloc, union(alloc, 5), "valid"));
    assert!(rt; says(alloc, union(alloc, 6), "V11 /"));
    assert!(rt; says(alloc, with_bases(alloc, 1, 1), "V18 /"));
    assert!(rt; says(alloc, with_bases(alloc, 1, 2), "V18 /"));
}

/// Whether the type has the whole number.
fn has(ty: &XType, number: i128) -> bool {
    has_type(ty, &Value::Int(number))
}

/// Whether the type has the numbers of 64 bits, and none above them.
fn has_64_bits(ty: &XType) -> bool {
    has(ty, 18_446_744_073_709_551_615) && !has(ty, 18_446_744_073_709_551_616)
}

/// Whether a text with an octet 0 is a value of a string type.
fn is_text_with_nul(alloc: Global) -> Made<bool> {
    let text = Text::from_octets(alloc, b"a\0c")?;
    Ok(has_type(&XType::Str(3), &Value::Str(text)))
}

/// The weight of an array of no elements.
fn weight_of_none(alloc: Global) -> Made<u64> {
    Ok(capped_weight(&array_of_none(alloc)?))
}

/// Whether a bitmask of 64 bits has the numbers of 64 bits.
fn has_wide_masks(alloc: Global) -> Made<bool> {
    Ok(has_64_bits(&bitmask(alloc)?))
}

#[test]
fn values_that_no_text_means(rt: HostRuntime) {
    assert!(rt; is_text_with_nul(rt.alloc()) == Ok(false));
    assert!(rt; has_64_bits(&XType::Prim(Prim::Float64)));
    assert!(rt; has_wide_masks(rt.alloc()) == Ok(true));
    assert!(rt; weight_of_none(rt.alloc()) == Ok(1));
}

/// What a JSON text means for the type, written again, or the reason why it means nothing.
fn told(alloc: Global, ty: &XType, text: &[u8]) -> Made<Text> {
    if check_type(ty).is_err() {
        return Text::from_octets(alloc, b"no type");
    }
    match from_json(alloc, ty, text) {
        Ok(value) => to_json(alloc, ty, &value),
        Err(ValueFault::NotJson) => Text::from_octets(alloc, b"not JSON"),
        Err(ValueFault::Wrong { rule, path: _ }) => {
            Text::from_octets(alloc, format!(in alloc; "{rule}")?.as_bytes())
        }
        Err(ValueFault::OutOfMemory) => Err(OutOfMemory),
    }
}

/// Whether a JSON text is told so.
fn is_told(alloc: Global, ty: &XType, text: &[u8], want: &[u8]) -> bool {
    match told(alloc, ty, text) {
        Ok(told) => told.octets() == want,
        Err(_) => false,
    }
}

#[test]
fn octets_that_are_no_text(rt: HostRuntime) {
    let alloc = rt.alloc();
    let string = XType::Str(0);
    assert!(rt; is_told(alloc, &string, b"\"a\"", b"\"a\""));
    assert!(rt; is_told(alloc, &string, b"\"a\xff\"", b"not JSON"));
}

#[test]
fn a_member_whose_name_is_its_hash(rt: HostRuntime) -> Result<(), Fail> {
    let alloc = rt.alloc();
    let ty = hashed(alloc)?;
    let text = b"{\"#70dda5df\":3}";
    assert!(rt; is_told(alloc, &ty, text, text));
    assert!(rt; is_told(alloc, &ty, b"{\"#70DDA5DF\":3}", b"UNKNOWN"));
    Ok(())
}
