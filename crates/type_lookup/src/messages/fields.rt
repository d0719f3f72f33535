//! Reading the fields of a payload, one after another.
ghost use Rattle.std.specs.Prelude.{◌≡◌, [], Err, IfOk, length, true, false};
ghost use Rattle.type_lookup.specs.messages.Spelling.{KeepsLimits, payload_of};
ghost use Rattle.type_lookup.specs.declared.messages.messages.PayloadFault.TheVariants.{BadField};
ghost use Rattle.type_lookup.specs.messages.Fields.{Reads, octet_at, number_at, at_most as number_at_most, text_at, id_at, object_at, fetched_at, needed_at, outcome_at, point_at, times, counted_at, direction_at, operation_of as operation_of_number, operation_at, body_at, message_at, payload};

use crate::messages::items::Item;
use crate::messages::messages::{Message, Operation, PayloadFault};
use byteorder::{ByteOrder, LittleEndian};
use std::alloc::Global;
use type_trees::HashId;
use xt_lists::{Row, Text};

/// The hash identifier of getTypes.
pub const GET_TYPES: u32 = 25_318_099;

/// The hash identifier of getTypeDependencies.
pub const GET_TYPE_DEPENDENCIES: u32 = 119_907_363;

/// The hash identifier of putTypes.
pub const PUT_TYPES: u32 = 68_426_699;

const MOST_ITEMS: u32 = 1024;

const MOST_OBJECT: u32 = 131_072;

/// The octets of a payload that are still to be read.
#[derive(Drop)]
pub(crate) struct Fields<'a> {
    pub(crate) rest: &'a [u8],
}

impl<'a> Fields<'a> {
    fn new(octets: &'a [u8]) -> Fields<'a>
        ensures { result.rest.now ≡ octets.now }
    {
        Fields { rest: octets }
    }

    fn bad<T: Drop>(&self) -> Result<T, PayloadFault>
        ensures { result ≡ Err (BadField (length self.now.rest.now)) }
    {
        Err(PayloadFault::BadField {
            left: self.rest.len(),
        })
    }

    fn octet(&mut self) -> Result<u8, PayloadFault>
        ensures { Reads (octet_at self.old.rest.now) result self.new.rest.now }
    {
        let Some((first, rest)) = self.rest.split_first() else {
            return self.bad();
        };
        self.rest = rest;
        Ok(*first)
    }

    pub(crate) fn number(&mut self) -> Result<u32, PayloadFault>
        ensures { Reads (number_at self.old.rest.now) result self.new.rest.now }
    {
        let Some((front, rest)) = self.rest.split_at_checked(4) else {
            return self.bad();
        };
        self.rest = rest;
        Ok(LittleEndian::read_u32(front))
    }

    pub(crate) fn at_most(&mut self, most: u32) -> Result<u32, PayloadFault>
        ensures { Reads (number_at_most most self.old.rest.now) result self.new.rest.now }
    {
        let left = self.rest.len();
        let number = self.number()?;
        if number > most {
            return Err(PayloadFault::BadField { left });
        }
        Ok(number)
    }

    pub(crate) fn text(&mut self, alloc: Global, n: u32) -> Result<Text, PayloadFault>
        ensures { Reads (text_at n self.old.rest.now) result self.new.rest.now }
    {
        let Some((front, rest)) = self.rest.split_at_checked(n as usize) else {
            return self.bad();
        };
        let text = Text::from_octets(alloc, front)?;
        self.rest = rest;
        Ok(text)
    }

    pub(crate) fn id(&mut self) -> Result<HashId, PayloadFault>
        ensures { Reads (id_at self.old.rest.now) result self.new.rest.now }
    {
        let Some((front, rest)) = self.rest.split_at_checked(15) else {
            return self.bad();
        };
        let kind = front[0];
        if kind != 0xF1 && kind != 0xF2 {
            return self.bad();
        }
        let mut hash = [0u8; 14];
        hash.copy_from_slice(&front[1..15]);
        self.rest = rest;
        Ok(HashId { kind, hash })
    }

    pub(crate) fn object(&mut self, alloc: Global) -> Result<Text, PayloadFault>
        ensures { Reads (object_at self.old.rest.now) result self.new.rest.now }
    {
        let length = self.at_most(MOST_OBJECT)?;
        self.text(alloc, length)
    }

    fn outcome(&mut self) -> Result<u8, PayloadFault>
        ensures { Reads (outcome_at self.old.rest.now) result self.new.rest.now }
    {
        let left = self.rest.len();
        let outcome = self.octet()?;
        if outcome > 4 {
            return Err(PayloadFault::BadField { left });
        }
        Ok(outcome)
    }

    fn point(&mut self, alloc: Global) -> Result<Text, PayloadFault>
        ensures { Reads (point_at self.old.rest.now) result self.new.rest.now }
    {
        let left = self.rest.len();
        let length = self.octet()?;
        if length != 0 && length != 4 {
            return Err(PayloadFault::BadField { left });
        }
        self.text(alloc, u32::from(length))
    }

    pub(crate) fn counted<T: Item>(&mut self, alloc: Global) -> Result<Row<T>, PayloadFault>
        ensures { Reads (counted_at T.read_at self.old.rest.now) result self.new.rest.now }
    {
        let n = self.at_most(MOST_ITEMS)?;
        let mut items = Row::new(alloc);
        'items: for _ in 0..n {
            let item = T::read(self, alloc)?;
            items.push(item)?;
        }
        Ok(items)
    }

    fn outcomes(&mut self, alloc: Global) -> Result<Text, PayloadFault>
        ensures { Reads (counted_at outcome_at self.old.rest.now) result self.new.rest.now }
    {
        let n = self.at_most(MOST_ITEMS)?;
        let mut outcomes = Text::new(alloc);
        'items: for _ in 0..n {
            outcomes.push(self.outcome()?)?;
        }
        Ok(outcomes)
    }

    fn direction(&mut self) -> Result<bool, PayloadFault>
        ensures { Reads (direction_at self.old.rest.now) result self.new.rest.now }
    {
        let left = self.rest.len();
        match self.octet()? {
            0 => Ok(false),
            1 => Ok(true),
            _ => Err(PayloadFault::BadField { left }),
        }
    }

    fn operation(&mut self) -> Result<Operation, PayloadFault>
        ensures { Reads (operation_at self.old.rest.now) result self.new.rest.now }
    {
        let left = self.rest.len();
        let number = self.number()?;
        match operation_of(number) {
            Some(operation) => Ok(operation),
            None => Err(PayloadFault::BadField { left }),
        }
    }

    fn request(
        &mut self,
        alloc: Global,
        operation: Operation,
        tag: u32,
    ) -> Result<Message, PayloadFault>
        ensures { Reads (body_at false operation tag self.old.rest.now) result self.new.rest.now }
    {
        match operation {
            Operation::GetTypes => {
                let ids = self.counted(alloc)?;
                Ok(Message::GetTypes { tag, ids })
            }
            Operation::GetTypeDependencies => {
                let ids = self.counted(alloc)?;
                let point = self.point(alloc)?;
                Ok(Message::GetTypeDependencies { tag, ids, point })
            }
            Operation::PutTypes => {
                let objects = self.counted(alloc)?;
                Ok(Message::PutTypes { tag, objects })
            }
        }
    }

    fn reply(
        &mut self,
        alloc: Global,
        operation: Operation,
        tag: u32,
    ) -> Result<Message, PayloadFault>
        ensures { Reads (body_at true operation tag self.old.rest.now) result self.new.rest.now }
    {
        match operation {
            Operation::GetTypes => {
                let objects = self.counted(alloc)?;
                Ok(Message::Types { tag, objects })
            }
            Operation::GetTypeDependencies => {
                let needed = self.counted(alloc)?;
                let point = self.point(alloc)?;
                Ok(Message::Dependencies { tag, needed, point })
            }
            Operation::PutTypes => {
                let outcomes = self.outcomes(alloc)?;
                Ok(Message::Put { tag, outcomes })
            }
        }
    }

    fn message(&mut self, alloc: Global) -> Result<Message, PayloadFault>
        ensures { Reads (message_at self.old.rest.now) result self.new.rest.now }
    {
        let reply = self.direction()?;
        let operation = self.operation()?;
        let tag = self.number()?;
        if reply {
            self.reply(alloc, operation, tag)
        } else {
            self.request(alloc, operation, tag)
        }
    }
}

fn operation_of(number: u32) -> Option<Operation>
    ensures { result ≡ operation_of_number number }
{
    match number {
        GET_TYPES => Some(Operation::GetTypes),
        GET_TYPE_DEPENDENCIES => Some(Operation::GetTypeDependencies),
        PUT_TYPES => Some(Operation::PutTypes),
        _ => None,
    }
}

/// The message that a payload is. The fault is the first bad field, or the first octet after the message.
pub fn read_payload(alloc: Global, octets: &[u8]) -> Result<Message, PayloadFault>
    ensures read { Reads (payload octets.now) result [] }

    // A message that is read keeps the limits, and the payload is its spelling.
    ensures limits { IfOk result KeepsLimits }
    ensures spelled { IfOk result (λ message. octets.now ≡ payload_of message) }
{
    let mut fields = Fields::new(octets);
    let message = fields.message(alloc)?;
    if fields.rest.len() > 0 {
        return fields.bad();
    }
    Ok(message)
}
