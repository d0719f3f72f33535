// Whole samples.
ghost use Rattle.std.specs.Prelude.{◌≡◌, ◌∷◌, ◌==◌, ◌/◌, ◌%◌, true, Ok, IfSome};
ghost use Rattle.xt_shapes.specs.declared.leaves.Rep.TheVariants.{Xcdr2};
ghost use Rattle.type_trees.specs.Bridge.{type_shape};
ghost use Rattle.xcdr_model.specs.Premises.{sound};
ghost use Rattle.xcdr_model.specs.Samples as model;
ghost use Rattle.xcdr_model.specs.Xcdr1Reading as spec;
ghost use Rattle.try_construct.specs.Guides.{IsGuide};
ghost use Rattle.projection_laws.specs.Premises.{IsValid};
ghost use Rattle.packed_reader.specs.View.{packed_val};
ghost use Rattle.packed_reader.specs.Bodies.{IsHead, IsBody, IsOwn, IsTail};
ghost use Rattle.packed_reader.specs.Spots.{spot_of};

use crate::ahead::Ahead;
use crate::reading::{read_members, read_packed};
use crate::values::Packed;
use std::alloc::Global;
use try_construct::Guide;
use type_rules::shape_keeps_rules;
use type_trees::{XType, as_struct};
use xt_shapes::{Ext, Order, Rep};
use xt_wire::numbers::{half_identifier, top_of};

// Whether the second octet of the identifier tells the representation and the extensibility.
fn is_kind(rep: Rep, ext: Ext, kind: u8) -> bool
    ensures { result ≡ (kind / 2 == model.row_of rep ext) }
{
    kind / 2 == half_identifier(rep, ext)
}

fn order_of(kind: u8) -> Order
    ensures { result ≡ model.order_of (kind % 2) }
{
    if kind % 2 == 0 {
        Order::Big
    } else {
        Order::Little
    }
}

// The byte order of a sample in that representation and of that extensibility, how many octets of padding it counts, and what is behind its head.
fn open_sample<'a>(rep: Rep, ext: Ext, sample: &'a [u8]) -> Option<(Order, usize, &'a [u8])>
    ensures { IfSome result (λ x. IsHead rep ext sample.now x.0 x.1 x.2.now) }
{
    let [first, kind, _, counting, behind @ ..] = sample else {
        return None;
    };
    if *first != 0 {
        return None;
    }
    if !is_kind(rep, ext, *kind) {
        return None;
    }
    Some((order_of(*kind), usize::from(*counting % 4), behind))
}

// Whether a value of that type may end before its last members, or has the rest of its region, in XCDR1.
#[tactic(auto, using(type_trees::proofs::Views::tree_rules))]
fn is_open(ty: &XType) -> bool
    ensures { result ≡ spec.is_open (type_shape ty.now) }
{
    match ty {
        XType::Struct(kind) => match kind.ext {
            Ext::Appendable => true,
            Ext::Final => false,
            Ext::Mutable => false,
        },
        XType::Union(_) => true,
        XType::Alias(kind) => is_open(&kind.ty),
        XType::Prim(_)
        | XType::Str(_)
        | XType::Enum(_)
        | XType::Mask(_)
        | XType::Seq(_)
        | XType::Array(_)
        | XType::Map(_) => false,
    }
}

// The whole body of a value that has only its own octets.
fn read_own<'a>(
    alloc: Global,
    rep: Rep,
    order: Order,
    ty: &XType,
    guide: &Guide,
    ahead: Ahead<'a>,
) -> Option<Packed<'a>>
    requires sound { sound (type_shape ty.now) ≡ true }
    requires guide { IsGuide (type_shape ty.now) guide.now }
    ensures { IfSome result (λ v. IsOwn rep order (type_shape ty.now) (spot_of ahead.entry) (packed_val v)) }
{
    let (value, left) = read_packed(alloc, rep, order, ty, guide, ahead)?;
    if !left.rest.is_empty() {
        return None;
    }
    Some(value)
}

// The whole body of an APPENDABLE structure in XCDR1. What is left behind its members is passed over.
fn read_tail<'a>(
    alloc: Global,
    order: Order,
    ty: &XType,
    guide: &Guide,
    ahead: Ahead<'a>,
) -> Option<Packed<'a>>
    requires sound { sound (type_shape ty.now) ≡ true }
    requires guide { IsGuide (type_shape ty.now) guide.now }
    ensures { IfSome result (λ v. IsTail order (type_shape ty.now) (spot_of ahead.entry) (packed_val v)) }
{
    let kind = as_struct(ty)?;
    let Ext::Appendable = kind.ext else {
        return None;
    };
    let (value, _) = read_members(
        alloc,
        Rep::Xcdr1,
        order,
        true,
        kind.members.as_slice(),
        guide,
        ahead,
    )?;
    Some(value)
}

// The whole body as a value.
fn read_body<'a>(
    alloc: Global,
    rep: Rep,
    order: Order,
    ty: &XType,
    guide: &Guide,
    body: &'a [u8],
) -> Option<Packed<'a>>
    requires valid { IsValid ty.now }
    requires guide { IsGuide (type_shape ty.now) guide.now }
    ensures { IfSome result (λ v. IsBody rep order (type_shape ty.now) body.now (packed_val v)) }
{
    shape_keeps_rules();
    shape_laws::premises_hold();
    if body.len() >= 9_223_372_036_854_775_807 {
        return None;
    }
    let ahead = Ahead {
        rest: body,
        place: 0,
    };
    match rep {
        Rep::Xcdr2 => {
            let value = read_own(alloc, Rep::Xcdr2, order, ty, guide, ahead)?;
            Some(value)
        }
        Rep::Xcdr1 => {
            if is_open(ty) {
                let value = read_tail(alloc, order, ty, guide, ahead)?;
                return Some(value);
            }
            let value = read_own(alloc, Rep::Xcdr1, order, ty, guide, ahead)?;
            Some(value)
        }
    }
}

/// Reads a whole sample in that representation, in either byte order, where it is plain (DDS-XTypes 1.3, 7.6.3.1.2): the members stand in
/// declared order, and nothing has to be settled or filled in. What stands behind the members of an APPENDABLE structure is passed over. In
/// XCDR1 no member is a parameter, and a union by itself isn't plain. Some is what the definition reads. None says nothing: the general
/// reader tells. Memory that is wanting is None, too. Literals are found in logarithmic time where the guide knows them; `Guide::of(alloc,
/// ty)` makes such a guide.
pub fn read_plain<'a>(
    alloc: Global,
    rep: Rep,
    ty: &XType,
    guide: &Guide,
    sample: &'a [u8],
) -> Option<Packed<'a>>
    requires valid { IsValid ty.now }
    requires guide { IsGuide (type_shape ty.now) guide.now }
    ensures { IfSome result (λ v. model.read_sample rep (type_shape ty.now) sample.now ≡ Ok (model.sample (packed_val v))) }
{
    let (order, pad, behind) = open_sample(rep, top_of(ty), sample)?;
    if behind.len() < pad {
        return None;
    }
    let (body, _) = behind.split_at(behind.len() - pad);
    let value = read_body(alloc, rep, order, ty, guide, body)?;
    Some(value)
}
