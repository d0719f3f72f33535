ghost use Rattle.std.specs.Prelude.{◌≡◌};
ghost use Rattle.type_trees.specs.View.{member_tree, case_tree};
ghost use Rattle.type_resolve.specs.Views.{member_head, case_head};
ghost use Rattle.idl_types.specs.Definitions.{member_head as used_member_head, case_head as used_case_head};

use idl_types::{UsedCase, UsedMember};
use type_trees::{Case, Member, Name};
use xt_lists::Row;
use xt_shapes::Try;

/// What a member has besides its type, in a tree or in a definition.
#[derive(Clone, Copy)]
pub(crate) struct MemberHeading<'a> {
    pub(crate) id: u32,
    pub(crate) name: &'a Name,
    pub(crate) tc: Try,
    pub(crate) optional: bool,
    pub(crate) must_understand: bool,
    pub(crate) key: bool,
}

/// What a case has besides its type, in a tree or in a definition.
#[derive(Clone, Copy)]
pub(crate) struct CaseHeading<'a> {
    pub(crate) id: u32,
    pub(crate) name: &'a Name,
    pub(crate) tc: Try,
    pub(crate) labels: &'a Row<i32>,
    pub(crate) is_default: bool,
}

#[tactic(auto, using(type_trees::proofs::Views::tree_rules))]
pub(crate) fn of_member(member: &Member) -> MemberHeading<'_>
    ensures head { member_head result ≡ (member_tree member.now).0 }
    ensures name { result.name.now ≡ member.now.name }
{
    MemberHeading {
        id: member.id,
        name: &member.name,
        tc: member.tc,
        optional: member.optional,
        must_understand: member.must_understand,
        key: member.key,
    }
}

pub(crate) fn of_used_member(member: &UsedMember) -> MemberHeading<'_>
    ensures head { member_head result ≡ used_member_head member.now }
    ensures name { result.name.now ≡ member.now.name }
{
    MemberHeading {
        id: member.id,
        name: &member.name,
        tc: member.tc,
        optional: member.optional,
        must_understand: member.must_understand,
        key: member.key,
    }
}

#[tactic(auto, using(type_trees::proofs::Views::tree_rules))]
pub(crate) fn of_case(case: &Case) -> CaseHeading<'_>
    ensures { case_head result ≡ (case_tree case.now).0 }
{
    CaseHeading {
        id: case.id,
        name: &case.name,
        tc: case.tc,
        labels: &case.labels,
        is_default: case.is_default,
    }
}

pub(crate) fn of_used_case(case: &UsedCase) -> CaseHeading<'_>
    ensures { case_head result ≡ used_case_head case.now }
{
    CaseHeading {
        id: case.id,
        name: &case.name,
        tc: case.tc,
        labels: &case.labels,
        is_default: case.is_default,
    }
}
