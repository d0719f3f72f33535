ghost use Rattle.std.specs.Prelude.{◌≡◌, ◌≤◌, map, length};
ghost use Rattle.node_judge.specs.Marks as spec;
ghost use Rattle.xt_shapes.specs.Lists.{all};

use arrayvec::ArrayVec;

/// How many marks are held against the other side's at once.
const BLOCK: usize = 256;

/// What is compared of a named part: the hash of its name, and its id or value.
#[derive(Debug, Clone, Copy, Default)]
pub struct Mark {
    pub hash: u32,
    pub number: i64,
}

/// A part that has a mark.
pub trait Marked {
    ghost use Rattle.node_judge.specs.declared.marks.Mark.{Mark};

    ghost mark_of: { Self → Mark };

    /// The part's mark. It hashes the name.
    fn mark(&self) -> Mark
        ensures { result ≡ mark_of self.now };
}

fn fits(left: Mark, right: Mark) -> bool
    ensures { result ≡ spec.fits left right }
{
    (left.hash == right.hash) == (left.number == right.number)
}

/// Whether `mark` fits each of the block. It goes through the whole block, of which several marks at a time are compared.
fn fits_all(block: &[Mark], mark: Mark) -> bool
    ensures { result ≡ all (λ held. spec.fits held mark) block.now }
{
    let mut fit = true;
    for held in block {
        fit &= fits(*held, mark);
    }
    fit
}

fn block_of<T: Marked>(items: &[T]) -> ArrayVec<Mark, 256>
    requires { length items.now ≤ 256 }
    ensures { result.items ≡ map T.mark_of items.now }
{
    let mut block = ArrayVec::new();
    for item in items {
        block.push(item.mark());
    }
    block
}

fn all_fit<T: Marked>(block: &[Mark], others: &[T]) -> bool
    ensures { result ≡ all (λ mark. all (λ held. spec.fits held mark) block.now) (map T.mark_of others.now) }
{
    for other in others {
        if !fits_all(block, other.mark()) {
            return false;
        }
    }
    true
}

fn block_fits<T: Marked>(items: &[T], others: &[T]) -> bool
    requires { length items.now ≤ 256 }
    ensures { result ≡ spec.same_marks (map T.mark_of items.now) (map T.mark_of others.now) }
{
    let block = block_of(items);
    all_fit(block.as_slice(), others)
}

/// Whether parts have the same hash exactly where they have the same number. It takes no memory: each name on the left is
/// hashed once, and each on the right once for a block of the left's.
pub(crate) fn same_marks<T: Marked>(left: &[T], right: &[T]) -> bool
    ensures { result ≡ spec.same_marks (map T.mark_of left.now) (map T.mark_of right.now) }
{
    let mut rest = left;
    while rest.len() > BLOCK {
        let (block, more) = rest.split_at(BLOCK);
        if !block_fits(block, right) {
            return false;
        }
        rest = more;
    }
    block_fits(rest, right)
}
