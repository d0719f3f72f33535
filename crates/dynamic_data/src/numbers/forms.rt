/// What is written in place of a leaf.
#[derive(Clone, Copy, PartialEq, Eq)]
pub(crate) enum Form {
    /// A number for the raw bits of a finite float.
    Numbers,
    /// Raw bits for a number that stands for a float, and an empty text for one that is too large.
    Bits,
    /// The same, and 0 for one that is too large.
    BitsOrZero,
}
