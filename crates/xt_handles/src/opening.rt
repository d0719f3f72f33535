ghost use Rattle.std.specs.Prelude.{◌≡◌};
ghost use Rattle.xt_handles.specs.Handled as spec;

use crate::held_reader::ReaderHandle;
use crate::held_types::TypesHandle;
use std::alloc::Global;
use tool_runs::output::Stop;
use xt_calls::{CLOSED, DONE, MEMORY, Reader, Types, answer_of, nothing, tell};

/// Hands over why a call stopped.
pub fn hand_stop(stop: Stop, room: &mut [u8], needed: &mut usize) -> u32
    ensures { spec.HandsStop stop room.old room.new needed.new result }
{
    match stop {
        Stop::Refused(refused) => tell(answer_of(refused), room, needed),
        Stop::Halted(_) => nothing(MEMORY, needed),
    }
}

/// Keeps types that were opened in the handle. What it held is freed.
pub fn keep_types(alloc: Global, types: &mut TypesHandle, opened: Types, needed: &mut usize) -> u32
    ensures { spec.Keeps opened types.new.held needed.new result }
{
    match Box::new(alloc, opened) {
        Ok(kept) => {
            types.put(alloc, kept);
            nothing(DONE, needed)
        }
        Err(_) => {
            types.close(alloc);
            nothing(MEMORY, needed)
        }
    }
}

fn keep_reader(alloc: Global, reader: &mut ReaderHandle, opened: Reader, needed: &mut usize) -> u32
    ensures { spec.Keeps opened reader.new.held needed.new result }
{
    match Box::new(alloc, opened) {
        Ok(kept) => {
            reader.put(alloc, kept);
            nothing(DONE, needed)
        }
        Err(_) => {
            reader.close(alloc);
            nothing(MEMORY, needed)
        }
    }
}

/// Opens a reader: the reader's type that a word names, where it is assignable from the writer's. What the handle held is freed.
pub fn open_reader(
    alloc: Global,
    reader: &mut ReaderHandle,
    types: &mut TypesHandle,
    reads: &[u8],
    writes: &[u8],
    rep: u32,
    flags: u32,
    text: &mut [u8],
    needed: &mut usize,
) -> u32
    ensures opens { spec.OpensReader types.old.held reads.now writes.now rep flags reader.new.held text.old text.new needed.new result }
    ensures rep { spec.HasRep rep reader.new.held }
    ensures kept { types.new.held ≡ types.old.held }
{
    match types.take(alloc) {
        None => {
            reader.close(alloc);
            nothing(CLOSED, needed)
        }
        Some(kept) => {
            let status = match Reader::open(alloc, &kept, reads, writes, rep, flags) {
                Ok(opened) => keep_reader(alloc, reader, opened, needed),
                Err(stop) => {
                    reader.close(alloc);
                    hand_stop(stop, text, needed)
                }
            };
            types.put(alloc, kept);
            status
        }
    }
}
