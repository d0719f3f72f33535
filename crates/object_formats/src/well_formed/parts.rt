ghost use Rattle.std.specs.Prelude.{◌≡◌};
ghost use Rattle.object_formats.specs.Tables as spec;
ghost use Rattle.object_formats.specs.View as view;

// A number is good by its width alone: its proof has the width from where the number is read.

use crate::codes::Flags;
use crate::objects::{ObjectCase, ObjectFlag, ObjectLiteral, ObjectMember};
use crate::well_formed::fields::{are_flags, is_name};
use crate::well_formed::identifiers::is_identifier;
use crate::well_formed::lists::{Tested, each};

impl Tested for ObjectLiteral {
    #[tactic(auto, using(crate::proofs::Good::literal_good))]
    fn is_good(&self, form: bool) -> bool {
        self.value.is_good(form)
            && are_flags(form, Flags::Literal, self.flags)
            && is_name(form, &self.name)
    }
}

impl Tested for ObjectFlag {
    #[tactic(auto, using(crate::proofs::Good::flag_good))]
    fn is_good(&self, form: bool) -> bool {
        let _position = self.position;
        is_name(form, &self.name)
    }
}

impl Tested for ObjectMember {
    #[tactic(auto, using(crate::proofs::Good::member_good))]
    fn is_good(&self, form: bool) -> bool {
        let _id = self.id;
        are_flags(form, Flags::Member, self.flags)
            && is_identifier(form, &self.ty)
            && is_name(form, &self.name)
    }
}

impl Tested for ObjectCase {
    #[tactic(auto, using(crate::proofs::Good::case_good))]
    fn is_good(&self, form: bool) -> bool {
        let _id = self.id;
        are_flags(form, Flags::Case, self.flags)
            && is_identifier(form, &self.ty)
            && each(form, self.labels.as_slice())
            && is_name(form, &self.name)
    }
}
