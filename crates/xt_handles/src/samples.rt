ghost use Rattle.std.specs.Prelude.{◌≡◌};
ghost use Rattle.type_trees.specs.View.{tree};
ghost use Rattle.type_trees.specs.Bridge.{type_shape};
ghost use Rattle.xcdr_model.specs.Samples.{read_sample};
ghost use Rattle.xt_calls.specs.Calls as calls;
ghost use Rattle.xt_handles.specs.Handled as spec;

use crate::held_reader::ReaderHandle;
use std::alloc::Global;
use xt_calls::{CLOSED, MEMORY, WORDS, floats_of, nothing, rep_of, tell, written_in};

/// What the reader's type makes of a sample, as JSON with floats as flags ask.
pub fn read_in(
    alloc: Global,
    reader: &mut ReaderHandle,
    sample: &[u8],
    flags: u32,
    text: &mut [u8],
    needed: &mut usize,
) -> u32
    ensures says { spec.SaysShown (calls.floats_of flags) (λ r. calls.read_answer (tree r.ty) (read_sample r.rep (type_shape r.ty) sample.now)) reader.old.held text.old text.new needed.new result }
    ensures kept { reader.new.held ≡ reader.old.held }
{
    match reader.take(alloc) {
        None => nothing(CLOSED, needed),
        Some(kept) => {
            let status = match floats_of(flags) {
                None => nothing(WORDS, needed),
                Some(floats) => match kept.read(alloc, floats, sample) {
                    Ok(answer) => tell(answer, text, needed),
                    Err(_) => nothing(MEMORY, needed),
                },
            };
            reader.put(alloc, kept);
            status
        }
    }
}

/// The same, as a sample of the reader's type in a representation, in little-endian order.
pub fn convert_in(
    alloc: Global,
    reader: &mut ReaderHandle,
    sample: &[u8],
    to: u32,
    out: &mut [u8],
    needed: &mut usize,
) -> u32
    ensures says { spec.SaysIn (calls.rep_of to) (λ rep r. calls.converted_answer rep (tree r.ty) (read_sample r.rep (type_shape r.ty) sample.now)) reader.old.held out.old out.new needed.new result }
    ensures kept { reader.new.held ≡ reader.old.held }
{
    match reader.take(alloc) {
        None => nothing(CLOSED, needed),
        Some(kept) => {
            let status = match rep_of(to) {
                None => nothing(WORDS, needed),
                Some(to) => match kept.convert(alloc, to, sample) {
                    Ok(answer) => tell(answer, out, needed),
                    Err(_) => nothing(MEMORY, needed),
                },
            };
            reader.put(alloc, kept);
            status
        }
    }
}

/// A value of the reader's type in JSON, with floats as flags ask, as a sample in a representation, in little-endian order.
pub fn write_in(
    alloc: Global,
    reader: &mut ReaderHandle,
    json: &[u8],
    to: u32,
    flags: u32,
    out: &mut [u8],
    needed: &mut usize,
) -> u32
    ensures says { spec.SaysIn (calls.written_in to flags) (λ form r. calls.written_answer form.0 (tree r.ty) (calls.meaning form.1 (tree r.ty) json.now)) reader.old.held out.old out.new needed.new result }
    ensures kept { reader.new.held ≡ reader.old.held }
{
    match reader.take(alloc) {
        None => nothing(CLOSED, needed),
        Some(kept) => {
            let status = match written_in(to, flags) {
                None => nothing(WORDS, needed),
                Some((to, floats)) => match kept.write(alloc, to, floats, json) {
                    Ok(answer) => tell(answer, out, needed),
                    Err(_) => nothing(MEMORY, needed),
                },
            };
            reader.put(alloc, kept);
            status
        }
    }
}
