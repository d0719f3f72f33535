//! The library for C: types are opened from a bundle and readers among them, each behind a handle, and samples are read, converted and
//! written. What C declares is in `include/xt.h`.
#![tactic(auto)]

ghost use Rattle.std.specs.Prelude.{◌≡◌, ℕ};
ghost use Rattle.type_trees.specs.View.{tree};
ghost use Rattle.type_trees.specs.Bridge.{type_shape};
ghost use Rattle.xcdr_model.specs.Samples.{read_sample};
ghost use Rattle.tool_samples.specs.lines.Lines.{converted, sample_line, written};
ghost use Rattle.xt_calls.specs.Calls as calls;
ghost use Rattle.xt_calls.specs.Laws.{line_of, record_of, turn_of};
ghost use Rattle.xt_calls.specs.Opened.{front};
ghost use Rattle.xt_handles.specs.Handled as handled;
ghost use Rattle.xt_c.specs.Exports as spec;

use std::alloc::Global;
use xt_calls::{
    CLOSED, MEMORY, Types, commands_agree, conversions_are_records, headline, lines_are_read,
    nothing, tell, values_come_back, writes_are_records,
};
use xt_handles::{
    ReaderHandle, TypesHandle, convert_in, hand_stop, keep_types, open_reader, read_in, write_in,
};

/// Opens the types of a bundle, of which nothing but Notes comes behind the front. What the handle held is freed.
#[unsafe(no_mangle)]
pub extern "C" fn xt_types_open(
    alloc: Global,
    types: &mut TypesHandle,
    bundle: &[u8],
    text: &mut [u8],
    needed: &mut usize,
) -> u32
    ensures { handled.Opens front (calls.types_of bundle.now) types.new.held text.old text.new needed.new result }
{
    match Types::open(alloc, bundle) {
        Ok(opened) => keep_types(alloc, types, opened, needed),
        Err(stop) => {
            types.close(alloc);
            hand_stop(stop, text, needed)
        }
    }
}

/// Frees the types. The readers that were opened among them stay.
#[unsafe(no_mangle)]
pub extern "C" fn xt_types_close(alloc: Global, types: &mut TypesHandle)
    ensures { types.new.held ≡ None }
{
    types.close(alloc)
}

/// Opens a reader: the reader's type that a word names, where it is assignable from the writer's. What the handle held is freed.
#[unsafe(no_mangle)]
pub extern "C" fn xt_reader_open(
    alloc: Global,
    reader: &mut ReaderHandle,
    types: &mut TypesHandle,
    reads: &[u8],
    writes: &[u8],
    rep: u32,
    flags: u32,
    text: &mut [u8],
    needed: &mut usize,
) -> u32
    ensures opens { handled.OpensReader types.old.held reads.now writes.now rep flags reader.new.held text.old text.new needed.new result }
    ensures rep { handled.HasRep rep reader.new.held }
    ensures projections { spec.ReadsProjections types.old.held (calls.pair_of reads.now writes.now rep flags) reader.new.held }
    ensures kept { types.new.held ≡ types.old.held }
{
    headline();
    open_reader(
        alloc, reader, types, reads, writes, rep, flags, text, needed,
    )
}

/// Frees the reader.
#[unsafe(no_mangle)]
pub extern "C" fn xt_reader_close(alloc: Global, reader: &mut ReaderHandle)
    ensures { reader.new.held ≡ None }
{
    reader.close(alloc)
}

/// What the reader's type makes of a sample, as JSON. Flags are 0, or 1 where finite floats are to stand as numbers.
#[unsafe(no_mangle)]
pub extern "C" fn xt_read(
    alloc: Global,
    reader: &mut ReaderHandle,
    sample: &[u8],
    flags: u32,
    text: &mut [u8],
    needed: &mut usize,
) -> u32
    ensures says { handled.SaysShown (calls.floats_of flags) (λ r. calls.read_answer (tree r.ty) (read_sample r.rep (type_shape r.ty) sample.now)) reader.old.held text.old text.new needed.new result }
    ensures as_line { spec.ShowsLine (calls.floats_of flags) line_of (λ r. sample_line r.rep (tree r.ty) sample.now) reader.old.held text.old text.new needed.new result }
    ensures comes_back { spec.ReadComesBack reader.old.held }
    ensures kept { reader.new.held ≡ reader.old.held }
{
    lines_are_read();
    values_come_back();
    read_in(alloc, reader, sample, flags, text, needed)
}

/// The same, as a sample of the reader's type in a representation, in little-endian order.
#[unsafe(no_mangle)]
pub extern "C" fn xt_convert(
    alloc: Global,
    reader: &mut ReaderHandle,
    sample: &[u8],
    to: u32,
    out: &mut [u8],
    needed: &mut usize,
) -> u32
    ensures says { handled.SaysIn (calls.rep_of to) (λ rep r. calls.converted_answer rep (tree r.ty) (read_sample r.rep (type_shape r.ty) sample.now)) reader.old.held out.old out.new needed.new result }
    ensures as_record { spec.WritesIn (calls.rep_of to) record_of (λ rep r. converted rep (tree r.ty) (read_sample r.rep (type_shape r.ty) sample.now)) reader.old.held out.old out.new needed.new result }
    ensures kept { reader.new.held ≡ reader.old.held }
{
    conversions_are_records();
    convert_in(alloc, reader, sample, to, out, needed)
}

/// A value of the reader's type in JSON, as a sample in a representation, in little-endian order. Flags are 0, or 1 where floats may stand
/// as numbers.
#[unsafe(no_mangle)]
pub extern "C" fn xt_write(
    alloc: Global,
    reader: &mut ReaderHandle,
    json: &[u8],
    to: u32,
    flags: u32,
    out: &mut [u8],
    needed: &mut usize,
) -> u32
    ensures says { handled.SaysIn (calls.written_in to flags) (λ form r. calls.written_answer form.0 (tree r.ty) (calls.meaning form.1 (tree r.ty) json.now)) reader.old.held out.old out.new needed.new result }
    ensures as_record { (k : ℕ) → spec.WritesIn (calls.written_in to flags) (turn_of k) (λ form r. written form.0 (tree r.ty) k (calls.meaning form.1 (tree r.ty) json.now)) reader.old.held out.old out.new needed.new result }
    ensures kept { reader.new.held ≡ reader.old.held }
{
    writes_are_records();
    write_in(alloc, reader, json, to, flags, out, needed)
}

/// Whether the reader's type that a word names is assignable from the writer's: 0, or 1 with the rule and the path.
#[tactic(auto, using(crate::proofs::Told::agrees))]
#[unsafe(no_mangle)]
pub extern "C" fn xt_judge(
    alloc: Global,
    types: &mut TypesHandle,
    reads: &[u8],
    writes: &[u8],
    rep: u32,
    flags: u32,
    text: &mut [u8],
    needed: &mut usize,
) -> u32
    ensures says { spec.SaysOrNot (λ held. calls.judged (calls.pair_of reads.now writes.now rep flags) (front held)) types.old.held text.old text.new needed.new result }
    ensures commands { spec.AgreesWithCommands types.old.held }
    ensures kept { types.new.held ≡ types.old.held }
{
    commands_agree();
    match types.take(alloc) {
        None => nothing(CLOSED, needed),
        Some(kept) => {
            let status = match kept.judge(alloc, reads, writes, rep, flags) {
                Ok(answer) => tell(answer, text, needed),
                Err(stop) => hand_stop(stop, text, needed),
            };
            types.put(alloc, kept);
            status
        }
    }
}

/// The identifier of the TypeObject of the structure or union that a word names, in 30 hexadecimal digits: the complete one, or for a word
/// that names an object that object's own.
#[tactic(auto, using(crate::proofs::Told::agrees))]
#[unsafe(no_mangle)]
pub extern "C" fn xt_type_id(
    alloc: Global,
    types: &mut TypesHandle,
    word: &[u8],
    text: &mut [u8],
    needed: &mut usize,
) -> u32
    ensures says { spec.SaysOrNot (λ held. calls.identified word.now (front held)) types.old.held text.old text.new needed.new result }
    ensures commands { spec.AgreesWithCommands types.old.held }
    ensures kept { types.new.held ≡ types.old.held }
{
    commands_agree();
    match types.take(alloc) {
        None => nothing(CLOSED, needed),
        Some(kept) => {
            let status = match kept.id_of(alloc, word) {
                Ok(answer) => tell(answer, text, needed),
                Err(stop) => hand_stop(stop, text, needed),
            };
            types.put(alloc, kept);
            status
        }
    }
}

/// The minimal identifier of the structure or union that a word names, in 30 hexadecimal digits.
#[unsafe(no_mangle)]
pub extern "C" fn xt_minimal_id(
    alloc: Global,
    types: &mut TypesHandle,
    word: &[u8],
    text: &mut [u8],
    needed: &mut usize,
) -> u32
    ensures says { spec.SaysOrNot (λ held. calls.minimally_identified word.now (front held)) types.old.held text.old text.new needed.new result }
    ensures kept { types.new.held ≡ types.old.held }
{
    match types.take(alloc) {
        None => nothing(CLOSED, needed),
        Some(kept) => {
            let status = match kept.minimal_id_of(alloc, word) {
                Ok(answer) => tell(answer, text, needed),
                Err(stop) => hand_stop(stop, text, needed),
            };
            types.put(alloc, kept);
            status
        }
    }
}

/// The IDL text of the structure or union that a word names. What it refers to is named in it, and not defined.
#[unsafe(no_mangle)]
pub extern "C" fn xt_print(
    alloc: Global,
    types: &mut TypesHandle,
    word: &[u8],
    text: &mut [u8],
    needed: &mut usize,
) -> u32
    ensures says { spec.SaysOrNot (λ held. calls.printed_by word.now (front held)) types.old.held text.old text.new needed.new result }
    ensures kept { types.new.held ≡ types.old.held }
{
    match types.take(alloc) {
        None => nothing(CLOSED, needed),
        Some(kept) => {
            let status = match kept.print(alloc, word) {
                Ok(answer) => tell(answer, text, needed),
                Err(stop) => hand_stop(stop, text, needed),
            };
            types.put(alloc, kept);
            status
        }
    }
}

/// The IDL text of all types that texts of the bundle declare.
#[unsafe(no_mangle)]
pub extern "C" fn xt_print_all(
    alloc: Global,
    types: &mut TypesHandle,
    text: &mut [u8],
    needed: &mut usize,
) -> u32
    ensures says { spec.Says (λ held. calls.said 0 (calls.texts_in (front held).0)) types.old.held text.old text.new needed.new result }
    ensures kept { types.new.held ≡ types.old.held }
{
    match types.take(alloc) {
        None => nothing(CLOSED, needed),
        Some(kept) => {
            let status = match kept.print_all(alloc) {
                Ok(answer) => tell(answer, text, needed),
                Err(_) => nothing(MEMORY, needed),
            };
            types.put(alloc, kept);
            status
        }
    }
}

/// The hash of the key of a sample's value, as the reader's type sees it: 16 octets.
#[unsafe(no_mangle)]
pub extern "C" fn xt_key_hash(
    alloc: Global,
    reader: &mut ReaderHandle,
    sample: &[u8],
    hash: &mut [u8],
    needed: &mut usize,
) -> u32
    ensures says { spec.Says (λ r. calls.key_answer r.rep (tree r.ty) sample.now) reader.old.held hash.old hash.new needed.new result }
    ensures kept { reader.new.held ≡ reader.old.held }
{
    match reader.take(alloc) {
        None => nothing(CLOSED, needed),
        Some(kept) => {
            let status = match kept.key_hash(alloc, sample) {
                Ok(answer) => tell(answer, hash, needed),
                Err(_) => nothing(MEMORY, needed),
            };
            reader.put(alloc, kept);
            status
        }
    }
}
