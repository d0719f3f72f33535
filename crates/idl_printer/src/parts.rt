ghost use Rattle.std.specs.Prelude.{◌≡◌, ◌++◌, codes, OnOk};
ghost use Rattle.type_trees.specs.View.{tree, member_tree, members_tree, case_tree, cases_tree};
ghost use Rattle.idl_printer.specs.Words.{name_text};
ghost use Rattle.idl_printer.specs.Parts as spec;

use crate::uses::declarator;
use crate::words::{append_if, id_note, name_octets, number, signed, try_word};
use type_trees::{Case, Flag, Literal, Member, Name, XType};
use xt_lists::{OutOfMemory, Text};
use xt_shapes::{Prim, Try};

fn member_notes(
    out: &mut Text,
    id: u32,
    key: bool,
    optional: bool,
    must_understand: bool,
) -> Result<(), OutOfMemory>
    ensures { OnOk result (out.new ≡ out.old ++ spec.member_notes id key optional must_understand) }
{
    id_note(out, id)?;
    append_if(out, key, b"@key ")?;
    append_if(out, optional, b"@optional ")?;
    append_if(out, must_understand, b"@must_understand ")
}

/// What follows a member's or case's other annotations.
#[tactic(auto, using(crate::proofs::Joins::joins), unfolding(crate::specs::Parts::declared_text))]
fn declared(tc: Try, ty: &XType, name: &Name, out: &mut Text) -> Result<(), OutOfMemory>
    ensures { OnOk result (out.new ≡ out.old ++ spec.declared_text tc (tree ty.now) (name_text name.now)) }
{
    out.append(try_word(tc))?;
    declarator(ty, name_octets(name), out)?;
    out.append(b"; ")
}

#[tactic(auto, using(crate::proofs::Joins::joins, type_trees::proofs::Views::tree_rules))]
fn one_member(member: &Member, out: &mut Text) -> Result<(), OutOfMemory>
    ensures { OnOk result (out.new ≡ out.old ++ spec.member_text (member_tree member.now).0 (member_tree member.now).1) }
{
    member_notes(
        out,
        member.id,
        member.key,
        member.optional,
        member.must_understand,
    )?;
    declared(member.tc, &member.ty, &member.name, out)
}

#[tactic(auto, using(crate::proofs::Joins::joins))]
pub(crate) fn all_members(members: &[Member], out: &mut Text) -> Result<(), OutOfMemory>
    ensures { OnOk result (out.new ≡ out.old ++ spec.members_text (members_tree members.now)) }
{
    for member in members {
        one_member(member, out)?;
    }
    Ok(())
}

fn name_of_value(n: i32, literals: &[Literal]) -> &[u8]
    ensures { result.now ≡ spec.name_of_value n literals.now }
{
    for literal in literals {
        if literal.value == n {
            return name_octets(&literal.name);
        }
    }
    &[]
}

fn quoted(out: &mut Text, n: i32) -> Result<(), OutOfMemory>
    ensures { OnOk result (out.new ≡ out.old ++ spec.quoted_text n) }
{
    if n < 0 || n > 255 {
        return Ok(());
    }
    out.append(&[b'\'', n as u8, b'\''])
}

/// A label in the form of the discriminator's type.
#[tactic(auto, using(crate::proofs::Joins::joins, type_trees::proofs::Views::tree_rules))]
fn label(disc: &XType, n: i32, out: &mut Text) -> Result<(), OutOfMemory>
    ensures { OnOk result (out.new ≡ out.old ++ spec.label_text (tree disc.now) n) }
{
    match disc {
        XType::Alias(kind) => label(&kind.ty, n, out),
        XType::Enum(kind) => out.append(name_of_value(n, kind.literals.as_slice())),
        XType::Prim(Prim::Boolean) => out.append(if n == 0 { b"FALSE" } else { b"TRUE" }),
        XType::Prim(Prim::Char8) => quoted(out, n),
        XType::Prim(
            Prim::Byte
            | Prim::Int8
            | Prim::Uint8
            | Prim::Int16
            | Prim::Uint16
            | Prim::Int32
            | Prim::Uint32
            | Prim::Int64
            | Prim::Uint64
            | Prim::Float32
            | Prim::Float64,
        )
        | XType::Str(_)
        | XType::Mask(_)
        | XType::Seq(_)
        | XType::Array(_)
        | XType::Map(_)
        | XType::Struct(_)
        | XType::Union(_) => signed(out, n),
    }
}

#[tactic(auto, using(crate::proofs::Joins::joins))]
fn case_label(disc: &XType, n: i32, out: &mut Text) -> Result<(), OutOfMemory>
    ensures { OnOk result (out.new ≡ out.old ++ spec.case_label (tree disc.now) n) }
{
    out.append(b"case ")?;
    label(disc, n, out)?;
    out.append(b": ")
}

#[tactic(auto, using(crate::proofs::Joins::joins))]
fn case_labels(disc: &XType, labels: &[i32], out: &mut Text) -> Result<(), OutOfMemory>
    ensures { OnOk result (out.new ≡ out.old ++ spec.labels_text (tree disc.now) labels.now) }
{
    for n in labels {
        case_label(disc, *n, out)?;
    }
    Ok(())
}

#[tactic(auto, using(crate::proofs::Joins::joins, type_trees::proofs::Views::tree_rules), unfolding(crate::specs::Parts::case_text))]
fn one_case(disc: &XType, case: &Case, out: &mut Text) -> Result<(), OutOfMemory>
    ensures { OnOk result (out.new ≡ out.old ++ spec.case_text (tree disc.now) (case_tree case.now).0 (case_tree case.now).1) }
{
    case_labels(disc, case.labels.as_slice(), out)?;
    append_if(out, case.is_default, b"default: ")?;
    id_note(out, case.id)?;
    declared(case.tc, &case.ty, &case.name, out)
}

#[tactic(auto, using(crate::proofs::Joins::joins))]
pub(crate) fn all_cases(disc: &XType, cases: &[Case], out: &mut Text) -> Result<(), OutOfMemory>
    ensures { OnOk result (out.new ≡ out.old ++ spec.cases_text (tree disc.now) (cases_tree cases.now)) }
{
    for case in cases {
        one_case(disc, case, out)?;
    }
    Ok(())
}

#[tactic(auto, using(crate::proofs::Joins::joins))]
fn value_note(literal: &Literal, out: &mut Text) -> Result<(), OutOfMemory>
    ensures { OnOk result (out.new ≡ out.old ++ spec.value_text literal.now.value) }
{
    out.append(b"@value(")?;
    signed(out, literal.value)?;
    out.append(b") ")
}

#[tactic(auto, using(crate::proofs::Joins::joins), unfolding(crate::specs::Parts::literal_text))]
fn one_literal(literal: &Literal, out: &mut Text) -> Result<(), OutOfMemory>
    ensures { OnOk result (out.new ≡ out.old ++ spec.literal_text literal.now) }
{
    append_if(out, literal.is_default, b"@default_literal ")?;
    value_note(literal, out)?;
    out.append(name_octets(&literal.name))
}

#[tactic(auto, using(crate::proofs::Joins::joins))]
fn next_literal(literal: &Literal, out: &mut Text) -> Result<(), OutOfMemory>
    ensures { OnOk result (out.new ≡ out.old ++ (codes ", " ++ spec.literal_text literal.now)) }
{
    out.append(b", ")?;
    one_literal(literal, out)
}

#[tactic(auto, using(crate::proofs::Joins::joins))]
fn more_literals(literals: &[Literal], out: &mut Text) -> Result<(), OutOfMemory>
    ensures { OnOk result (out.new ≡ out.old ++ spec.more_literals literals.now) }
{
    for literal in literals {
        next_literal(literal, out)?;
    }
    Ok(())
}

#[tactic(auto, using(crate::proofs::Joins::joins))]
pub(crate) fn all_literals(literals: &[Literal], out: &mut Text) -> Result<(), OutOfMemory>
    ensures { OnOk result (out.new ≡ out.old ++ spec.literals_text literals.now) }
{
    match literals {
        [] => Ok(()),
        [first, rest @ ..] => {
            one_literal(first, out)?;
            more_literals(rest, out)
        }
    }
}

#[tactic(auto, using(crate::proofs::Joins::joins), unfolding(crate::specs::Parts::position_text))]
fn one_flag(flag: &Flag, out: &mut Text) -> Result<(), OutOfMemory>
    ensures { OnOk result (out.new ≡ out.old ++ spec.position_text flag.now) }
{
    out.append(b"@position(")?;
    number(out, u32::from(flag.position))?;
    out.append(b") ")?;
    out.append(name_octets(&flag.name))
}

#[tactic(auto, using(crate::proofs::Joins::joins))]
fn next_flag(flag: &Flag, out: &mut Text) -> Result<(), OutOfMemory>
    ensures { OnOk result (out.new ≡ out.old ++ (codes ", " ++ spec.position_text flag.now)) }
{
    out.append(b", ")?;
    one_flag(flag, out)
}

#[tactic(auto, using(crate::proofs::Joins::joins))]
fn more_flags(flags: &[Flag], out: &mut Text) -> Result<(), OutOfMemory>
    ensures { OnOk result (out.new ≡ out.old ++ spec.more_flags flags.now) }
{
    for flag in flags {
        next_flag(flag, out)?;
    }
    Ok(())
}

#[tactic(auto, using(crate::proofs::Joins::joins))]
pub(crate) fn all_flags(flags: &[Flag], out: &mut Text) -> Result<(), OutOfMemory>
    ensures { OnOk result (out.new ≡ out.old ++ spec.flags_text flags.now) }
{
    match flags {
        [] => Ok(()),
        [first, rest @ ..] => {
            one_flag(first, out)?;
            more_flags(rest, out)
        }
    }
}
