//! The laws that tie the judge to the codecs, over the definitions alone: each function has an empty body, and its contract is the
//! law. They hold of all valid types, of both representations and byte orders, and under every policy.
#![tactic(auto)]

ghost use Rattle.shape_laws.specs.KeyLaws.{KeyOctetsTell, KeysCross, KeyOctetsBound};
ghost use Rattle.shape_laws.specs.Premises.{PremisesHold, DefaultTyped};
ghost use Rattle.shape_laws.specs.Readings.{OneReading, BodyIsValue, ValueTyped, ReadTyped, SampleTyped, ValueNodesBound, NodesBound, SampleNodesBound};
ghost use Rattle.shape_laws.specs.RoundTrips.{SelfRead, SelfProjected, FixedSpells, RoundTrip, SampleWritten, SizeSame, SampleSized};
ghost use Rattle.shape_laws.specs.Soundness.{Cross, CrossSample, CrossTail, CrossInner, CrossKey, ProjectionTyped};
ghost use Rattle.shape_laws.specs.Verdicts.{Equivalent, Judged, JudgedNested, ExactlyOne};

/// All that the laws ask of a type follows from the rules of valid types.
pub fn premises_hold()
    ensures { PremisesHold }
{}

/// A valid type's default has the type.
pub fn default_typed()
    ensures { DefaultTyped }
{}

/// The test of equivalence is equality of shapes.
pub fn equivalent()
    ensures { Equivalent }
{}

/// Nothing fails exactly where the reader's type is assignable (DDS-XTypes 1.3, 7.2.4).
pub fn judged()
    ensures { Judged }
{}

/// Nothing fails at a nested pair exactly where the types fit.
pub fn judged_nested()
    ensures { JudgedNested }
{}

/// A pair is assignable, or one rule fails at one path, and never both.
pub fn exactly_one()
    ensures { ExactlyOne }
{}

/// A yes is sound for decoding: a body that spells a value of the writer's type is read, by the reader's type alone, as the value's projection.
pub fn cross()
    ensures { Cross }
{}

/// The same of whole samples.
pub fn cross_sample()
    ensures { CrossSample }
{}

/// The same of a nested value that has the rest of its region.
pub fn cross_tail()
    ensures { CrossTail }
{}

/// The same of a nested value with other octets behind it.
pub fn cross_inner()
    ensures { CrossInner }
{}

/// Where the projection is a sample, its key is the writer's.
pub fn cross_key()
    ensures { CrossKey }
{}

/// A sample that a projection gives has the reader's type.
pub fn projection_typed()
    ensures { ProjectionTyped }
{}

/// What spells a value of a type is read by that type as the value.
pub fn self_read()
    ensures { SelfRead }
{}

/// A value's projection onto its own type is the value.
pub fn self_projected()
    ensures { SelfProjected }
{}

/// The fixed spelling is a spelling.
pub fn fixed_spells()
    ensures { FixedSpells }
{}

/// The body that is written is read again as the value.
pub fn round_trip()
    ensures { RoundTrip }
{}

/// The sample that is written is a sample of the value, and is read again as it.
pub fn sample_written()
    ensures { SampleWritten }
{}

/// A value's size doesn't depend on the byte order.
pub fn size_same()
    ensures { SizeSame }
{}

/// A written sample has its value's size.
pub fn sample_sized()
    ensures { SampleSized }
{}

/// Octets have one outcome, or one first fault, and never both.
pub fn one_reading()
    ensures { OneReading }
{}

/// A body is a value with nothing left behind it.
pub fn body_is_value()
    ensures { BodyIsValue }
{}

/// A value that is read at any place of a region has the reader's type.
pub fn value_typed()
    ensures { ValueTyped }
{}

/// What is read of a body has the reader's type.
pub fn read_typed()
    ensures { ReadTyped }
{}

/// What is read of a sample has the reader's type.
pub fn sample_typed()
    ensures { SampleTyped }
{}

/// A value that is read at any place of a region has at most its type's weight and 128 nodes for each octet that was read.
pub fn value_nodes_bound()
    ensures { ValueNodesBound }
{}

/// What is read of a body has at most its type's weight and 128 nodes for each octet.
pub fn nodes_bound()
    ensures { NodesBound }
{}

/// The same of a sample.
pub fn sample_nodes_bound()
    ensures { SampleNodesBound }
{}

/// Key octets tell keys apart (DDS-XTypes 1.3, 7.6.8).
pub fn key_octets_tell()
    ensures { KeyOctetsTell }
{}

/// Key octets and hashes come through a projection.
pub fn keys_cross()
    ensures { KeysCross }
{}

/// A sample that was read has at most 16 key octets for each node of its type's weight and for each octet that was read.
pub fn key_octets_bound()
    ensures { KeyOctetsBound }
{}
