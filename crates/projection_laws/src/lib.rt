//! The laws that tie the judge to the codecs, over the program's types: a Yes is sound for decoding, keys come through, a value is
//! read as itself, and what is read is not too large. Each function has a law as its contract and does nothing.
#![tactic(auto)]

ghost use Rattle.std.specs.Prelude.{◌≡◌, ◌≤◌, ◌+◌, ◌*◌, IsTrue, Ok, Bool, false, length};
ghost use Rattle.xt_shapes.specs.declared.leaves.Order.{Order};
ghost use Rattle.xt_shapes.specs.Defaults.{default_of};
ghost use Rattle.xt_shapes.specs.Nodes.{nodes};
ghost use Rattle.xt_shapes.specs.Typing.{has_type};
ghost use Rattle.xt_shapes.specs.Vals.{Val};
ghost use Rattle.xt_shapes.specs.Weight.{weight};
ghost use Rattle.type_trees.specs.Bridge.{type_shape};
ghost use Rattle.type_trees.specs.View.{val};
ghost use Rattle.xcdr_model.specs.KeyOctets.{key_octets, key_hash, short};
ghost use Rattle.xcdr_model.specs.Keys.{key};
ghost use Rattle.xcdr_model.specs.Projection.{got};
ghost use Rattle.xcdr_model.specs.SampleSpelling.{spells};
ghost use Rattle.xcdr_model.specs.Samples.{sample, body_outcome, body_read, projection, read_sample};
ghost use Rattle.projection_laws.specs.Inside.{ReadsAsTail, ReadsInside};
ghost use Rattle.projection_laws.specs.Premises.{FitsInside, IsStrongPair, IsValid, IsYes};

use type_rules::shape_keeps_rules;
use type_trees::{Value, XType};
use xcdr_model::Policy;
use xt_shapes::Rep;

/// A Yes is sound for decoding: where the reader's type `t1` is assignable from the writer's type `t2` under the policy, or
/// equivalent to it, a body that spells the value under the writer's type is read, by the reader's type alone, as the value's
/// projection (DDS-XTypes 1.3, 7.2.4 and 7.4).
pub fn cross(policy: &Policy, rep: Rep, t1: &XType, t2: &XType, v: &Value, octets: &[u8])
    requires reader { IsValid t1.now }
    requires writer { IsValid t2.now }
    requires yes { IsYes policy.now rep t1.now t2.now }
    ensures { (o : Order) → spells rep o (type_shape t2.now) (val v.now) 0 octets.now → body_outcome rep o (type_shape t1.now) octets.now ≡ Ok (projection (type_shape t1.now) (type_shape t2.now) (val v.now)) }
{
    shape_keeps_rules();
    shape_laws::cross();
}

/// The same of a value inside another that has the rest of its region, at any place: it is read as its projection, and the region is
/// used up.
pub fn cross_tail(policy: &Policy, rep: Rep, t1: &XType, t2: &XType, v: &Value, octets: &[u8])
    requires reader { IsValid t1.now }
    requires writer { IsValid t2.now }
    requires fits { FitsInside policy.now rep t1.now t2.now }
    ensures { ReadsAsTail rep (type_shape t1.now) (type_shape t2.now) (val v.now) octets.now }
{
    shape_keeps_rules();
    shape_laws::cross_tail();
}

/// The same of a value inside another with other octets behind it, at any place: it is read as its projection, using exactly its own
/// octets.
pub fn cross_inner(policy: &Policy, rep: Rep, t1: &XType, t2: &XType, v: &Value, octets: &[u8])
    requires reader { IsValid t1.now }
    requires writer { IsValid t2.now }
    requires strong { IsStrongPair policy.now rep t1.now t2.now }
    ensures { ReadsInside rep (type_shape t1.now) (type_shape t2.now) (val v.now) octets.now }
{
    shape_keeps_rules();
    shape_laws::cross_inner();
}

/// The key comes through: where the projection of a value of the writer's type is a sample, the sample's key under the reader's
/// type is the value's under the writer's.
pub fn cross_key(policy: &Policy, rep: Rep, t1: &XType, t2: &XType, v: &Value)
    requires reader { IsValid t1.now }
    requires writer { IsValid t2.now }
    requires yes { IsYes policy.now rep t1.now t2.now }
    requires typed { IsTrue (has_type (type_shape t2.now) (val v.now)) }
    ensures { (w : Val) → projection (type_shape t1.now) (type_shape t2.now) (val v.now) ≡ sample w → key (type_shape t1.now) w ≡ key (type_shape t2.now) (val v.now) }
{
    shape_keeps_rules();
    shape_laws::cross_key();
}

/// Under its own type each body that spells a value is read as that value, with nothing unknown that must be understood, and the
/// value's projection is the value itself. So it is also where a type's key members make it not assignable from itself.
pub fn self_read(rep: Rep, t: &XType, v: &Value, octets: &[u8])
    requires valid { IsValid t.now }
    requires typed { IsTrue (has_type (type_shape t.now) (val v.now)) }
    ensures read { (o : Order) → spells rep o (type_shape t.now) (val v.now) 0 octets.now → body_read rep o (type_shape t.now) octets.now ≡ Ok (got (val v.now), false) }
    ensures projected { projection (type_shape t.now) (type_shape t.now) (val v.now) ≡ sample (val v.now) }
{
    shape_keeps_rules();
    shape_laws::self_read();
    shape_laws::self_projected();
}

/// A value that is read from a body or a sample has at most the type's weight and 128 nodes for each octet.
pub fn nodes_bound(rep: Rep, t: &XType, octets: &[u8])
    requires valid { IsValid t.now }
    ensures body { (o : Order) (w : Val) (u : Bool) → body_read rep o (type_shape t.now) octets.now ≡ Ok (got w, u) → nodes w ≤ weight (type_shape t.now) + 128 * length octets.now }
    ensures whole { (w : Val) → read_sample rep (type_shape t.now) octets.now ≡ Ok (sample w) → nodes w ≤ weight (type_shape t.now) + 128 * length octets.now }
{
    shape_keeps_rules();
    shape_laws::nodes_bound();
    shape_laws::sample_nodes_bound();
}

/// Key octets and key hashes come through: where the projection of a value of the writer's type is a sample, its key octets are the
/// writer's, and its key hash is where the keys of both types, or of neither, fit 16 octets (DDS-XTypes 1.3, 7.6.8).
pub fn keys_cross(policy: &Policy, rep: Rep, t1: &XType, t2: &XType, v: &Value)
    requires reader { IsValid t1.now }
    requires writer { IsValid t2.now }
    requires yes { IsYes policy.now rep t1.now t2.now }
    requires typed { IsTrue (has_type (type_shape t2.now) (val v.now)) }
    ensures octets { (w : Val) → projection (type_shape t1.now) (type_shape t2.now) (val v.now) ≡ sample w → key_octets (type_shape t1.now) w ≡ key_octets (type_shape t2.now) (val v.now) }
    ensures hash { (w : Val) → projection (type_shape t1.now) (type_shape t2.now) (val v.now) ≡ sample w → short (type_shape t1.now) ≡ short (type_shape t2.now) → key_hash (type_shape t1.now) w ≡ key_hash (type_shape t2.now) (val v.now) }
{
    shape_keeps_rules();
    shape_laws::keys_cross();
}

/// The default of a valid type has the type.
pub fn default_typed(t: &XType)
    requires valid { IsValid t.now }
    ensures { IsTrue (has_type (type_shape t.now) (default_of (type_shape t.now))) }
{
    shape_keeps_rules();
    shape_laws::default_typed();
}
