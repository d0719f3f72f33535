//! Spelling a message as a payload.
ghost use Rattle.std.specs.Prelude.{◌≡◌, ◌≤◌, ◌<◌, ◌^◌, ◌++◌, [], length, IfOk, OnOk};
ghost use Rattle.std.specs.List.{All};
ghost use Rattle.type_lookup.specs.messages.Fields.{number_of as number_of_operation, got, payload};
ghost use Rattle.type_lookup.specs.messages.Spelling.{number_octets, object_octets, point_octets, counted_octets, head_octets, payload_of, Keeps, KeepsLimits, IsPoint};

use crate::messages::fields::{GET_TYPE_DEPENDENCIES, GET_TYPES, PUT_TYPES};
use crate::messages::items::Item;
use crate::messages::messages::{Message, Operation};
use byteorder::{ByteOrder, LittleEndian};
use std::alloc::Global;
use xt_lists::{OutOfMemory, Row, Text};

pub(crate) fn put_number(text: &mut Text, number: u32) -> Result<(), OutOfMemory>
    ensures spelled { OnOk result (text.new ≡ text.old ++ number_octets number) }
    ensures range { number < 2 ^ 32 }
{
    let mut octets = [0; 4];
    LittleEndian::write_u32(&mut octets, number);
    text.append(&octets)
}

pub(crate) fn put_object(text: &mut Text, object: &Text) -> Result<(), OutOfMemory>
    requires { length object.now ≤ 131072 }
    ensures { OnOk result (text.new ≡ text.old ++ object_octets object.now) }
{
    put_number(text, object.len() as u32)?;
    text.append(object.octets())
}

fn put_point(text: &mut Text, point: &Text) -> Result<(), OutOfMemory>
    requires { IsPoint point.now }
    ensures { OnOk result (text.new ≡ text.old ++ point_octets point.now) }
{
    text.push(point.len() as u8)?;
    text.append(point.octets())
}

// A list's count and its items.
fn put_counted<T: Item>(text: &mut Text, row: &Row<T>) -> Result<(), OutOfMemory>
    requires { Keeps T.keeps row.now }
    ensures spelled { OnOk result (text.new ≡ text.old ++ counted_octets T.octets row.now) }
    ensures range { OnOk result (All T.in_range row.now) }
{
    let items = row.as_slice();
    put_number(text, items.len() as u32)?;
    'items: for item in items {
        item.put(text)?;
    }
    Ok(())
}

fn number_of(operation: Operation) -> u32
    ensures { result ≡ number_of_operation operation }
{
    match operation {
        Operation::GetTypes => GET_TYPES,
        Operation::GetTypeDependencies => GET_TYPE_DEPENDENCIES,
        Operation::PutTypes => PUT_TYPES,
    }
}

fn put_head(
    text: &mut Text,
    direction: u8,
    operation: Operation,
    tag: u32,
) -> Result<(), OutOfMemory>
    ensures spelled { OnOk result (text.new ≡ text.old ++ head_octets direction operation tag) }
    ensures range { tag < 2 ^ 32 }
{
    text.push(direction)?;
    put_number(text, number_of(operation))?;
    put_number(text, tag)
}

/// The payload that spells a message.
#[tactic(auto, using(crate::proofs::OfMessages::Reread::message_back), unfolding(crate::specs::messages::Spelling::payload_of))]
pub fn spell(alloc: Global, message: &Message) -> Result<Text, OutOfMemory>
    requires { KeepsLimits message.now }
    ensures spelled { IfOk result (λ text. text ≡ payload_of message.now) }
    ensures readable { OnOk result (payload (payload_of message.now) ≡ got message.now []) }
{
    let mut text = Text::new(alloc);
    match message {
        Message::GetTypes { tag, ids } => {
            put_head(&mut text, 0, Operation::GetTypes, *tag)?;
            put_counted(&mut text, ids)?;
            Ok(text)
        }
        Message::GetTypeDependencies { tag, ids, point } => {
            put_head(&mut text, 0, Operation::GetTypeDependencies, *tag)?;
            put_counted(&mut text, ids)?;
            put_point(&mut text, point)?;
            Ok(text)
        }
        Message::PutTypes { tag, objects } => {
            put_head(&mut text, 0, Operation::PutTypes, *tag)?;
            put_counted(&mut text, objects)?;
            Ok(text)
        }
        Message::Types { tag, objects } => {
            put_head(&mut text, 1, Operation::GetTypes, *tag)?;
            put_counted(&mut text, objects)?;
            Ok(text)
        }
        Message::Dependencies { tag, needed, point } => {
            put_head(&mut text, 1, Operation::GetTypeDependencies, *tag)?;
            put_counted(&mut text, needed)?;
            put_point(&mut text, point)?;
            Ok(text)
        }
        Message::Put { tag, outcomes } => {
            put_head(&mut text, 1, Operation::PutTypes, *tag)?;
            put_object(&mut text, outcomes)?;
            Ok(text)
        }
    }
}
