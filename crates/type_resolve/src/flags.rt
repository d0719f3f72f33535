ghost use Rattle.std.specs.Prelude.{◌≡◌, ◌+◌, ◌≤◌};
ghost use Rattle.type_resolve.specs.Objects as spec;
ghost use Rattle.type_resolve.specs.Views.{member_head, case_head};

use crate::heads::{CaseHeading, MemberHeading};
use xt_shapes::{Ext, Try};

/// The flag where it is set, else 0.
pub(crate) fn set(is_set: bool, flag: u16) -> u16
    ensures { result ≡ spec.set is_set flag }
{
    if is_set { flag } else { 0 }
}

/// What becomes of a value that can't be constructed, as flags.
pub(crate) fn try_flags(tc: Try) -> u16
    ensures value { result ≡ spec.try_flags tc }
    ensures small { result ≤ 3 }
{
    match tc {
        Try::Discard => 1,
        Try::UseDefault => 2,
        Try::Trim => 3,
    }
}

pub(crate) fn ext_flag(ext: Ext) -> u16
    ensures value { result ≡ spec.ext_flag ext }
    ensures small { result ≤ 4 }
{
    match ext {
        Ext::Final => 1,
        Ext::Appendable => 2,
        Ext::Mutable => 4,
    }
}

/// The flags of a structure or union.
pub(crate) fn type_flags(complete: bool, ext: Ext, nested: bool, hashed_ids: bool) -> u16
    ensures { result ≡ spec.type_flags complete ext nested hashed_ids }
{
    let more = if complete {
        set(nested, 0x08) + set(hashed_ids, 0x10)
    } else {
        0
    };
    ext_flag(ext) + more
}

pub(crate) fn member_flags(member: &MemberHeading<'_>) -> u16
    ensures { result ≡ spec.member_flags (member_head member.now) }
{
    try_flags(member.tc)
        + (set(member.optional, 0x08) + (set(member.must_understand, 0x10) + set(member.key, 0x20)))
}

pub(crate) fn case_flags(case: &CaseHeading<'_>) -> u16
    ensures { result ≡ spec.case_flags (case_head case.now) }
{
    try_flags(case.tc) + set(case.is_default, 0x40)
}
