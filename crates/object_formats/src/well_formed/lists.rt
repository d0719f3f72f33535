ghost use Rattle.std.specs.Prelude.{◌≡◌};
ghost use Rattle.object_formats.specs.Format.{each_good};

use crate::parts::Part;

/// A part of a list, which is good or not in its form.
pub(crate) trait Tested: Part {
    fn is_good(&self, form: bool) -> bool
        ensures { result ≡ (Self.format form).good (Self.seen self.now) };
}

/// A dimension of an array: the large form has room for each, and the small one for those below 256.
impl Tested for u32 {
    #[tactic(auto, using(crate::proofs::Good::small_good, crate::proofs::Good::large_good))]
    fn is_good(&self, form: bool) -> bool {
        let size = *self;
        form || size < 256
    }
}

/// A label of a case: each number of 32 bits with sign is good.
impl Tested for i32 {
    fn is_good(&self, _form: bool) -> bool {
        let _label = *self;
        true
    }
}

/// Whether each of the parts is good.
pub(crate) fn each<P: Tested>(form: bool, parts: &[P]) -> bool
    ensures { result ≡ each_good (P.format form) (P.all_seen parts.now) }
{
    let mut good = true;
    for part in parts {
        good = good && part.is_good(form);
    }
    good
}
