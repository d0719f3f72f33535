// The four octets of the encapsulation.
ghost use Rattle.std.specs.Prelude.{◌≡◌, ◌≤◌, IfOk};
ghost use Rattle.std.specs.Option.{option_map};
ghost use Rattle.xcdr_model.specs.Samples as spec;
ghost use Rattle.xt_wire.specs.cursor.Standing.{room};
ghost use Rattle.xt_wire.specs.cursor.Decoding.{Decodes};
ghost use Rattle.xcdr_samples.specs.frames.Heads.{head_view, head_told, head_at};
ghost use Rattle.xt_wire.specs.declared.cursor.faults.DecodeFault.TheVariants.{Malformed};
ghost use Rattle.xcdr_model.specs.declared.malformed.Why.TheVariants.{Encapsulation};

use xcdr_model::Why;
use xt_shapes::{Ext, Order, Rep};
use xt_wire::cursor::{Cursor, DecodeFault, read_octets};
use xt_wire::numbers::half_identifier;

/// What the encapsulation says: the order of the body's numbers, and how many octets of padding end the sample.
#[derive(Clone, Copy, Debug)]
pub struct Head {
    pub order: Order,
    pub padding: u8,
}

fn order_of(identifier: u16) -> Order
    ensures { result ≡ spec.order_of identifier }
{
    if identifier == 0 {
        Order::Big
    } else {
        Order::Little
    }
}

// What these octets say where their identifier is one of the two for this extensibility.
fn head_of(rep: Rep, ext: Ext, octets: [u8; 4]) -> Option<Head>
    ensures { option_map head_view result ≡ head_told rep ext octets }
{
    let [first, second, _, last] = octets;
    let identifier = 256 * u16::from(first) + u16::from(second);
    if identifier / 2 == u16::from(half_identifier(rep, ext)) {
        Some(Head {
            order: order_of(identifier % 2),
            padding: last % 4,
        })
    } else {
        None
    }
}

fn no_sample(at: u64) -> DecodeFault
    ensures { result ≡ Malformed at Encapsulation }
{
    DecodeFault::Malformed {
        at,
        why: Why::Encapsulation,
    }
}

/// Reads the encapsulation. It is malformed at its first octet where fewer than four are there or the identifier is another, and at its
/// third where it counts more padding than there are octets behind it.
pub fn read_head<C: Cursor>(cursor: &mut C, rep: Rep, ext: Ext) -> Result<Head, DecodeFault>
    ensures padding { IfOk result (λ h. h.padding ≤ room (C.state cursor.new)) }
    ensures value { Decodes head_view (head_at rep ext) (C.state cursor.old) (C.state cursor.new) result }
{
    let at = cursor.place();
    if cursor.region_end() - at < 4 {
        return Err(no_sample(at));
    }
    let mut octets = [0u8; 4];
    read_octets(cursor, &mut octets)?;
    let Some(head) = head_of(rep, ext, octets) else {
        return Err(no_sample(at));
    };
    if cursor.region_end() - cursor.place() < u64::from(head.padding) {
        return Err(no_sample(at + 2));
    }
    Ok(head)
}
