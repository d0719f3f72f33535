// What the id of a parameter's header tells (DDS-XTypes 1.3, 7.4.1.2.1).
ghost use Rattle.std.specs.Prelude.{◌≡◌};
ghost use Rattle.xcdr_model.specs.Xcdr1Reading as spec;
ghost use Rattle.xcdr_steps.specs.one.Marks.{mark_view};

use crate::one::marks::Mark;

const LIST_END: u32 = 0x3F02;

const IGNORED: u32 = 0x3F03;

/// Whether the header ends the list.
pub(crate) fn is_end(mark: Mark) -> bool
    ensures { result ≡ spec.is_end (mark_view mark) }
{
    !mark.extended && mark.id == LIST_END
}

/// Whether the parameter is to be passed over.
pub(crate) fn is_ignored(mark: Mark) -> bool
    ensures { result ≡ spec.is_ignored (mark_view mark) }
{
    !mark.extended && mark.id == IGNORED
}

/// Whether no member has the header's id.
pub(crate) fn is_no_id(mark: Mark) -> bool
    ensures { result ≡ spec.is_no_id (mark_view mark) }
{
    if mark.extended {
        mark.id == 0x0FFF_FFFF
    } else {
        mark.id > 0x3F00
    }
}
