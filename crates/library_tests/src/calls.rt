//! The calls for other languages, over octets in memory.
use std::alloc::Global;
use std::rt::HostRuntime;
use xt_calls::{Answer, Floats, Reader, Types, floats_of, rep_of, tell};
use xt_shapes::Rep;

// An IDL record: its kind, the length of its text, and the text.
const FRONT: &[u8] =
    b"\x03\0\0\0\xbemodule m { @final struct A {@key long x;}; @final struct B {string s;}; @final struct C {@key string<8> s;}; @final struct D {@key string<32> s;}; @final struct E {float f[2]; double g;}; };";

// A sample of m::A with 5 as its x, in XCDR2 and little-endian order.
const FIVE: &[u8] = b"\0\x07\0\0\x05\0\0\0";

// A sample of m::C with "ab" as its s.
const TEXT: &[u8] = b"\0\x07\0\x01\x03\0\0\0ab\0\0";

// Whether a call that has no fault has this answer.
fn says<E: Drop>(answer: Result<Answer, E>, status: u32, text: &[u8]) -> bool {
    match answer {
        Ok(answer) => answer.status == status && answer.text.octets() == text,
        Err(_) => false,
    }
}

// Whether a call that has no fault has this status.
fn ends<E: Drop>(answer: Result<Answer, E>, status: u32) -> bool {
    match answer {
        Ok(answer) => answer.status == status,
        Err(_) => false,
    }
}

// Whether a call that has no fault has a text that begins so.
fn begins<E: Drop>(answer: Result<Answer, E>, front: &[u8]) -> bool {
    match answer {
        Ok(answer) => answer.text.octets().starts_with(front),
        Err(_) => false,
    }
}

// The types of a bundle. What is dear to let go comes in boxes, and tests ask it in functions that borrow it.
fn types_of(alloc: Global, front: &[u8]) -> Option<Box<Types>> {
    Box::new(alloc, Types::open(alloc, front).ok()?).ok()
}

// A reader of a type that the one record of a bundle declares, whose samples are of another.
fn reader_of(alloc: Global, front: &[u8], reader: &[u8], writer: &[u8]) -> Option<Box<Reader>> {
    let types = types_of(alloc, front)?;
    Box::new(
        alloc,
        Reader::open(alloc, &types, reader, writer, 2, 0).ok()?,
    )
    .ok()
}

// Whether a sample of 5 is read, converted and written.
fn passes_five(alloc: Global, reader: &Reader) -> bool {
    says(reader.read(alloc, Floats::Bits, FIVE), 0, b"{\"x\":5}")
        && says(
            reader.convert(alloc, Rep::Xcdr1, FIVE),
            0,
            b"\0\x01\0\0\x05\0\0\0",
        )
        && says(
            reader.write(alloc, Rep::Xcdr2, Floats::Bits, b"{\"x\":5}"),
            0,
            FIVE,
        )
}

#[test]
fn a_sample_is_read_converted_and_written(rt: HostRuntime) {
    let reader = reader_of(rt.alloc(), FRONT, b"m::A", b"0/m::A").expect(&rt, "a reader");
    assert!(rt; passes_five(rt.alloc(), &reader));
}

// Whether a sample that is cut and a text that is cut are refused.
fn refuses_cut(alloc: Global, reader: &Reader) -> bool {
    ends(reader.read(alloc, Floats::Bits, b"\0\x07\0\0\x05\0\0"), 18)
        && says(
            reader.write(alloc, Rep::Xcdr2, Floats::Bits, b"{\"x\":"),
            10,
            b"syntax",
        )
}

#[test]
fn what_is_no_sample_is_refused(rt: HostRuntime) {
    let reader = reader_of(rt.alloc(), FRONT, b"m::A", b"0/m::A").expect(&rt, "a reader");
    assert!(rt; refuses_cut(rt.alloc(), &reader));
}

// Two float32s and a float64 in an array: 0.1 and NaN, and 1e300, in XCDR2 and little-endian order.
const FLOATS: &[u8] = b"\0\x07\0\0\xcd\xcc\xcc\x3d\0\0\xc0\x7f\x9c\x75\0\x88\x3c\xe4\x37\x7e";

// A structure of so many members that an index of their names is made.
const WIDE: &[u8] = b"\x03\0\0\0\x3b@final struct F {float a,b,c,d,e,f,g,h,i,j,k,l,m,n,o,p,q;};";

// Those floats as bits, and as numbers where they are finite.
const BITS: &[u8] = b"{\"f\":[\"3dcccccd\",\"7fc00000\"],\"g\":\"7e37e43c8800759c\"}";

const NUMBERS: &[u8] = b"{\"f\":[0.1,\"7fc00000\"],\"g\":1e300}";

// Whether floats are shown both ways, and read either way where numbers are asked.
fn passes_floats(alloc: Global, reader: &Reader) -> bool {
    says(reader.read(alloc, Floats::Bits, FLOATS), 0, BITS)
        && says(reader.read(alloc, Floats::Numbers, FLOATS), 0, NUMBERS)
        && says(
            reader.write(alloc, Rep::Xcdr2, Floats::Numbers, BITS),
            0,
            FLOATS,
        )
        && says(
            reader.write(alloc, Rep::Xcdr2, Floats::Numbers, NUMBERS),
            0,
            FLOATS,
        )
}

#[test]
fn finite_floats_are_numbers_where_they_are_asked(rt: HostRuntime) {
    let reader = reader_of(rt.alloc(), FRONT, b"m::E", b"m::E").expect(&rt, "a reader");
    assert!(rt; passes_floats(rt.alloc(), &reader));
}

// Whether a number that is no float's is read and written where numbers are asked, and a float is refused in its place.
fn passes_five_by_numbers(alloc: Global, reader: &Reader) -> bool {
    says(reader.read(alloc, Floats::Numbers, FIVE), 0, b"{\"x\":5}")
        && says(
            reader.write(alloc, Rep::Xcdr2, Floats::Numbers, b"{\"x\":5}"),
            0,
            FIVE,
        )
        && says(
            reader.write(alloc, Rep::Xcdr2, Floats::Numbers, b"{\"x\":5.5}"),
            10,
            b"RANGE /0",
        )
}

#[test]
fn numbers_change_nothing_where_no_float_is(rt: HostRuntime) {
    let reader = reader_of(rt.alloc(), FRONT, b"m::A", b"0/m::A").expect(&rt, "a reader");
    assert!(rt; passes_five_by_numbers(rt.alloc(), &reader));
}

// Whether the sample that a text is written as has so many octets, and is read as the text again.
fn comes_back(alloc: Global, reader: &Reader, text: &[u8], octets: usize) -> bool {
    match reader.write(alloc, Rep::Xcdr2, Floats::Numbers, text) {
        Ok(sample) => {
            sample.status == 0
                && sample.text.len() == octets
                && says(
                    reader.read(alloc, Floats::Numbers, sample.text.octets()),
                    0,
                    text,
                )
        }
        Err(_) => false,
    }
}

#[test]
fn wide_structures_are_read_with_numbers(rt: HostRuntime) {
    let reader = reader_of(rt.alloc(), WIDE, b"F", b"F").expect(&rt, "a reader");
    let text =
        b"{\"a\":0.5,\"b\":1.5,\"c\":2.5,\"d\":3.5,\"e\":4.5,\"f\":5.5,\"g\":6.5,\"h\":7.5,\"i\":8.5,\"j\":9.5,\"k\":10.5,\"l\":11.5,\"m\":12.5,\"n\":13.5,\"o\":14.5,\"p\":15.5,\"q\":16.5}";
    assert!(rt; comes_back(rt.alloc(), &reader, text, 72));
}

// Whether a text is refused for this reason, where numbers are asked.
fn refuses(alloc: Global, reader: &Reader, text: &[u8], why: &[u8]) -> bool {
    says(
        reader.write(alloc, Rep::Xcdr2, Floats::Numbers, text),
        10,
        why,
    )
}

// Whether a text with numbers is refused where bits are asked.
fn refuses_numbers(alloc: Global, reader: &Reader) -> bool {
    let text = b"{\"f\":[0,0],\"g\":0}";
    says(
        reader.write(alloc, Rep::Xcdr2, Floats::Bits, text),
        10,
        b"KIND /0/[]",
    )
}

#[test]
fn what_is_no_float_is_refused(rt: HostRuntime) {
    let alloc = rt.alloc();
    let reader = reader_of(alloc, FRONT, b"m::E", b"m::E").expect(&rt, "a reader");
    for (text, why) in [
        (
            b"{\"f\":[0,1e39],\"g\":0}".as_slice(),
            b"RANGE /0/[]".as_slice(),
        ),
        (b"{\"f\":[0,0],\"g\":-1e999}", b"RANGE /1"),
        (b"{\"f\":[\"\",1e39],\"g\":0}", b"TEXT /0/[]"),
        (b"{\"f\":[true,1e39],\"g\":0}", b"KIND /0/[]"),
    ] {
        assert!(rt; refuses(alloc, &reader, text, why));
    }
    assert!(rt; refuses_numbers(alloc, &reader) && floats_of(2).is_none());
}

// Whether the key of TEXT has this hash for the reader's type that a word names.
fn is_hashed(alloc: Global, reader: &[u8], hash: &[u8]) -> bool {
    match reader_of(alloc, FRONT, reader, b"m::C") {
        Some(reader) => says(reader.key_hash(alloc, TEXT), 0, hash),
        None => false,
    }
}

#[test]
fn a_key_is_hashed_by_the_length_that_it_may_have(rt: HostRuntime) {
    let short = b"\0\0\0\x03ab\0\0\0\0\0\0\0\0\0\0";
    assert!(rt; is_hashed(rt.alloc(), b"m::C", short));
    let long = b"\x18\x65\x94\xb7\x20\x5d\x08\xac\x2f\xf8\xe1\xac\x47\xfb\x4b\x2a";
    assert!(rt; is_hashed(rt.alloc(), b"m::D", long));
}

// Whether a type may read its own samples, and not those of one that has no member of its.
fn are_judged(alloc: Global, types: &Types) -> bool {
    says(types.judge(alloc, b"m::A", b"m::A", 2, 0), 0, b"")
        && types.judge(alloc, b"m::A", b"m::B", 2, 0).is_err()
}

// Whether a type has identifiers of both kinds.
fn are_named(alloc: Global, types: &Types) -> bool {
    begins(types.id_of(alloc, b"m::A"), b"f2") && begins(types.minimal_id_of(alloc, b"m::A"), b"f1")
}

// Whether a type is printed alone, and with the others.
fn are_printed(alloc: Global, types: &Types) -> bool {
    let a = b"module m { @final struct A { @id(0) @key long x; }; };\n";
    says(types.print(alloc, b"m::A"), 0, a) && begins(types.print_all(alloc), a)
}

#[test]
fn types_are_judged_named_and_printed(rt: HostRuntime) {
    let types = types_of(rt.alloc(), FRONT).expect(&rt, "types");
    assert!(rt; are_judged(rt.alloc(), &types));
    assert!(rt; are_named(rt.alloc(), &types));
    assert!(rt; are_printed(rt.alloc(), &types));
}

// The status that is told of a reading of FIVE into a room, and how many octets its text has.
fn told(alloc: Global, reader: &Reader, room: &mut [u8]) -> Option<(u32, usize)> {
    let answer = reader.read(alloc, Floats::Bits, FIVE).ok()?;
    let mut needed = 0;
    let status = tell(answer, room, &mut needed);
    Some((status, needed))
}

#[test]
fn an_answer_is_told_into_its_room(rt: HostRuntime) {
    let alloc = rt.alloc();
    let reader = reader_of(alloc, FRONT, b"m::A", b"0/m::A").expect(&rt, "a reader");
    let mut room = [9; 8];
    assert!(rt; told(alloc, &reader, &mut room) == Some((0, 7)));
    assert!(rt; room == *b"{\"x\":5}\x09");
    assert!(rt; told(alloc, &reader, &mut room[..6]) == Some((14, 7)));
    assert!(rt; room == *b"{\"x\":5}\x09");
    assert!(rt; rep_of(3).is_none());
}
