ghost use Rattle.std.specs.Prelude.{◌≡◌, ◌≤◌, true, length, IfOk};
ghost use Rattle.json.specs.Json.{array, object};
ghost use Rattle.json.specs.Tree.{HasNumbers, ItemsHaveNumbers, MembersHaveNumbers};
ghost use Rattle.json.specs.Value.{value_view, items_view, members_view};
ghost use Rattle.type_rules.specs.Places.{depth, members_depth, cases_depth};
ghost use Rattle.type_trees.specs.View.{tree, members_tree, cases_tree, struct_tree, union_tree, map_tree};
ghost use Rattle.json_values.specs.Names.{has_text_names, members_have_text_names, cases_have_text_names};
ghost use Rattle.dynamic_data.specs.numbers.Forms.{LeafTurns, Puts, PutsItems, PutsMembers};
ghost use Rattle.dynamic_data.specs.numbers.Places.{Finds};
ghost use Rattle.dynamic_data.specs.numbers.Walks.{Turns, ArrayTurns, PairTurns, MemberTurns, SelectedTurns, CaseTurns, BodyTurns};

use crate::numbers::cases::case_in;
use crate::numbers::forms::Form;
use crate::numbers::leaves::{keep, turn_leaf};
use crate::numbers::members::Finder;
use json::{Value as Json, Writer};
use std::alloc::Global;
use type_trees::{Case, MapType, Member, StructType, UnionType, XType};
use xt_lists::OutOfMemory;

// The items of an array and its bracket.
#[cycle(turn)]
fn turn_items(
    alloc: Global,
    form: Form,
    ty: &XType,
    items: &[Json<'_>],
    out: &mut Writer,
) -> Result<(), OutOfMemory>
    requires deep { depth (tree ty.now) ≤ 16 }
    requires named { has_text_names (tree ty.now) ≡ true }
    requires writable { ItemsHaveNumbers (items_view items.now) }
    ensures { PutsItems (Turns (LeafTurns form) (tree ty.now)) (items_view items.now) result out.old out.new }
{
    for item in items {
        turn(alloc, form, ty, item, out)?;
    }
    out.end_array()?;
    Ok(())
}

#[cycle(turn)]
fn turn_array(
    alloc: Global,
    form: Form,
    ty: &XType,
    part: &Json<'_>,
    out: &mut Writer,
) -> Result<(), OutOfMemory>
    requires deep { depth (tree ty.now) ≤ 16 }
    requires named { has_text_names (tree ty.now) ≡ true }
    requires writable { HasNumbers (value_view part.now) }
    ensures { Puts (ArrayTurns (Turns (LeafTurns form) (tree ty.now))) (value_view part.now) result out.old out.new }
{
    let Json::Array(items) = part else {
        return keep(part, out);
    };
    out.begin_array()?;
    turn_items(alloc, form, ty, items.as_slice(), out)
}

// A key and its value.
#[cycle(turn)]
fn turn_both(
    alloc: Global,
    form: Form,
    kind: &MapType,
    items: &[Json<'_>],
    out: &mut Writer,
) -> Result<(), OutOfMemory>
    requires deep { depth (map_tree kind.now) ≤ 16 }
    requires named { has_text_names (map_tree kind.now) ≡ true }
    requires two { length items.now ≡ 2 }
    requires writable { ItemsHaveNumbers (items_view items.now) }
    ensures { Puts (PairTurns (Turns (LeafTurns form) (tree kind.now.key.ty)) (Turns (LeafTurns form) (tree kind.now.value.ty))) (array (items_view items.now)) result out.old out.new }
{
    out.begin_array()?;
    turn(alloc, form, &kind.key.ty, &items[0], out)?;
    turn(alloc, form, &kind.value.ty, &items[1], out)?;
    out.end_array()?;
    Ok(())
}

#[cycle(turn)]
fn turn_pair(
    alloc: Global,
    form: Form,
    kind: &MapType,
    part: &Json<'_>,
    out: &mut Writer,
) -> Result<(), OutOfMemory>
    requires deep { depth (map_tree kind.now) ≤ 16 }
    requires named { has_text_names (map_tree kind.now) ≡ true }
    requires writable { HasNumbers (value_view part.now) }
    ensures { Puts (PairTurns (Turns (LeafTurns form) (tree kind.now.key.ty)) (Turns (LeafTurns form) (tree kind.now.value.ty))) (value_view part.now) result out.old out.new }
{
    let Json::Array(items) = part else {
        return keep(part, out);
    };
    if items.len() != 2 {
        return keep(part, out);
    }
    turn_both(alloc, form, kind, items.as_slice(), out)
}

// The pairs of a map and its bracket.
#[cycle(turn)]
fn turn_pairs(
    alloc: Global,
    form: Form,
    kind: &MapType,
    items: &[Json<'_>],
    out: &mut Writer,
) -> Result<(), OutOfMemory>
    requires deep { depth (map_tree kind.now) ≤ 16 }
    requires named { has_text_names (map_tree kind.now) ≡ true }
    requires writable { ItemsHaveNumbers (items_view items.now) }
    ensures { PutsItems (PairTurns (Turns (LeafTurns form) (tree kind.now.key.ty)) (Turns (LeafTurns form) (tree kind.now.value.ty))) (items_view items.now) result out.old out.new }
{
    for item in items {
        turn_pair(alloc, form, kind, item, out)?;
    }
    out.end_array()?;
    Ok(())
}

#[cycle(turn)]
fn turn_map(
    alloc: Global,
    form: Form,
    kind: &MapType,
    part: &Json<'_>,
    out: &mut Writer,
) -> Result<(), OutOfMemory>
    requires deep { depth (map_tree kind.now) ≤ 16 }
    requires named { has_text_names (map_tree kind.now) ≡ true }
    requires writable { HasNumbers (value_view part.now) }
    ensures { Puts (Turns (LeafTurns form) (map_tree kind.now)) (value_view part.now) result out.old out.new }
{
    let Json::Array(items) = part else {
        return keep(part, out);
    };
    out.begin_array()?;
    turn_pairs(alloc, form, kind, items.as_slice(), out)
}

// What stands at the name of a member.
#[cycle(turn)]
fn turn_found(
    alloc: Global,
    form: Form,
    member: &Member,
    part: &Json<'_>,
    out: &mut Writer,
) -> Result<(), OutOfMemory>
    requires deep { depth (tree member.now.ty) ≤ 16 }
    requires named { has_text_names (tree member.now.ty) ≡ true }
    requires writable { HasNumbers (value_view part.now) }
    ensures { Puts (Turns (LeafTurns form) (tree member.now.ty)) (value_view part.now) result out.old out.new }
{
    turn(alloc, form, &member.ty, part, out)
}

// What stands at a key, by the first member with that name.
#[cycle(turn)]
fn turn_member(
    alloc: Global,
    form: Form,
    members: &[Member],
    finder: &Finder,
    key: &str,
    part: &Json<'_>,
    out: &mut Writer,
) -> Result<(), OutOfMemory>
    requires deep { members_depth (members_tree members.now) ≤ 15 }
    requires named { members_have_text_names (members_tree members.now) ≡ true }
    requires finds { Finds members.now finder.now }
    requires writable { HasNumbers (value_view part.now) }
    ensures { Puts (MemberTurns (LeafTurns form) (members_tree members.now) key.now) (value_view part.now) result out.old out.new }
{
    match finder.place(members, key) {
        Some(at) => turn_found(alloc, form, &members[at], part, out),
        None => keep(part, out),
    }
}

// The members of an object and its brace.
#[cycle(turn)]
fn turn_members(
    alloc: Global,
    form: Form,
    members: &[Member],
    finder: &Finder,
    parts: &[(&str, Json<'_>)],
    out: &mut Writer,
) -> Result<(), OutOfMemory>
    requires deep { members_depth (members_tree members.now) ≤ 15 }
    requires named { members_have_text_names (members_tree members.now) ≡ true }
    requires finds { Finds members.now finder.now }
    requires writable { MembersHaveNumbers (members_view parts.now) }
    ensures { PutsMembers (MemberTurns (LeafTurns form) (members_tree members.now)) (members_view parts.now) result out.old out.new }
{
    for part in parts {
        out.key(part.0)?;
        turn_member(alloc, form, members, finder, part.0, &part.1, out)?;
    }
    out.end_object()?;
    Ok(())
}

#[cycle(turn)]
fn turn_struct(
    alloc: Global,
    form: Form,
    kind: &StructType,
    part: &Json<'_>,
    out: &mut Writer,
) -> Result<(), OutOfMemory>
    requires deep { depth (struct_tree kind.now) ≤ 16 }
    requires named { has_text_names (struct_tree kind.now) ≡ true }
    requires writable { HasNumbers (value_view part.now) }
    ensures { Puts (Turns (LeafTurns form) (struct_tree kind.now)) (value_view part.now) result out.old out.new }
{
    let Json::Object(parts) = part else {
        return keep(part, out);
    };
    let members = kind.members.as_slice();
    let finder = Finder::new(alloc, members, parts.len())?;
    out.begin_object()?;
    turn_members(alloc, form, members, &finder, parts.as_slice(), out)
}

// A body of the case with that id.
#[cycle(turn)]
fn turn_case(
    alloc: Global,
    form: Form,
    cases: &[Case],
    id: u32,
    part: &Json<'_>,
    out: &mut Writer,
) -> Result<(), OutOfMemory>
    requires deep { cases_depth (cases_tree cases.now) ≤ 15 }
    requires named { cases_have_text_names (cases_tree cases.now) ≡ true }
    requires writable { HasNumbers (value_view part.now) }
    ensures { Puts (CaseTurns (LeafTurns form) (cases_tree cases.now) id) (value_view part.now) result out.old out.new }
{
    for case in cases {
        if case.id == id {
            return turn(alloc, form, &case.ty, part, out);
        }
    }
    keep(part, out)
}

// What stands at a key of a union's object.
#[cycle(turn)]
fn turn_body(
    alloc: Global,
    form: Form,
    cases: &[Case],
    id: Option<u32>,
    key: &str,
    part: &Json<'_>,
    out: &mut Writer,
) -> Result<(), OutOfMemory>
    requires deep { cases_depth (cases_tree cases.now) ≤ 15 }
    requires named { cases_have_text_names (cases_tree cases.now) ≡ true }
    requires writable { HasNumbers (value_view part.now) }
    ensures { Puts (BodyTurns (SelectedTurns (CaseTurns (LeafTurns form) (cases_tree cases.now)) id) key.now) (value_view part.now) result out.old out.new }
{
    if key != "v" {
        return keep(part, out);
    }
    match id {
        Some(id) => turn_case(alloc, form, cases, id, part, out),
        None => keep(part, out),
    }
}

// The members of a union's object and its brace.
#[cycle(turn)]
fn turn_bodies(
    alloc: Global,
    form: Form,
    cases: &[Case],
    id: Option<u32>,
    parts: &[(&str, Json<'_>)],
    out: &mut Writer,
) -> Result<(), OutOfMemory>
    requires deep { cases_depth (cases_tree cases.now) ≤ 15 }
    requires named { cases_have_text_names (cases_tree cases.now) ≡ true }
    requires writable { MembersHaveNumbers (members_view parts.now) }
    ensures { PutsMembers (BodyTurns (SelectedTurns (CaseTurns (LeafTurns form) (cases_tree cases.now)) id)) (members_view parts.now) result out.old out.new }
{
    for part in parts {
        out.key(part.0)?;
        turn_body(alloc, form, cases, id, part.0, &part.1, out)?;
    }
    out.end_object()?;
    Ok(())
}

#[cycle(turn)]
fn turn_union(
    alloc: Global,
    form: Form,
    kind: &UnionType,
    part: &Json<'_>,
    out: &mut Writer,
) -> Result<(), OutOfMemory>
    requires deep { depth (union_tree kind.now) ≤ 16 }
    requires named { has_text_names (union_tree kind.now) ≡ true }
    requires writable { HasNumbers (value_view part.now) }
    ensures { Puts (Turns (LeafTurns form) (union_tree kind.now)) (value_view part.now) result out.old out.new }
{
    let Json::Object(parts) = part else {
        return keep(part, out);
    };
    let id = case_in(alloc, &kind.disc, kind.cases.as_slice(), part)?;
    out.begin_object()?;
    turn_bodies(
        alloc,
        form,
        kind.cases.as_slice(),
        id,
        parts.as_slice(),
        out,
    )
}

/// Writes a value of JSON along a type.
#[cycle(turn)]
pub(crate) fn turn(
    alloc: Global,
    form: Form,
    ty: &XType,
    part: &Json<'_>,
    out: &mut Writer,
) -> Result<(), OutOfMemory>
    requires deep { depth (tree ty.now) ≤ 16 }
    requires named { has_text_names (tree ty.now) ≡ true }
    requires writable { HasNumbers (value_view part.now) }
    ensures { Puts (Turns (LeafTurns form) (tree ty.now)) (value_view part.now) result out.old out.new }
{
    match ty {
        XType::Prim(prim) => turn_leaf(form, *prim, part, out),
        XType::Str(_) | XType::Enum(_) | XType::Mask(_) => keep(part, out),
        XType::Seq(kind) => turn_array(alloc, form, &kind.elem.ty, part, out),
        XType::Array(kind) => turn_array(alloc, form, &kind.elem.ty, part, out),
        XType::Map(kind) => turn_map(alloc, form, kind, part, out),
        XType::Struct(kind) => turn_struct(alloc, form, kind, part, out),
        XType::Union(kind) => turn_union(alloc, form, kind, part, out),
        XType::Alias(kind) => turn(alloc, form, &kind.ty, part, out),
    }
}
