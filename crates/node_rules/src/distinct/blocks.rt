ghost use Rattle.std.specs.Prelude.{◌≡◌, [], ◌++◌, ◌≤◌, false, length, MatchBool};
ghost use Rattle.std.specs.Ordering.{int_eq, int_cmp};
ghost use Rattle.std.specs.List.Sorted.{IsSorted};
ghost use Rattle.xt_shapes.specs.Lists.{has, all};
ghost use Rattle.xt_shapes.specs.NodeRules.{distinct};
ghost use Rattle.node_rules.specs.distinct.InBlocks.{holds_one, without, IsTaken, IsFilled, IsOrdered};

use crate::distinct::neighbours::has_same_next;
use crate::distinct::numbers::Numbers;
use arrayvec::ArrayVec;
use std::mem;

/// So few numbers are held one against another.
const FEW: usize = 256;

/// How many numbers are held against the others at once.
const BLOCK: usize = 8192;

/// Whether `number` is in `block`, whose numbers rise.
fn holds(block: &[i64], number: i64) -> bool
    requires { IsSorted int_cmp block.now }
    ensures { result ≡ has (λ held. int_eq held number) block.now }
{
    match block.binary_search(&number) {
        Ok(_) => true,
        Err(_) => false,
    }
}

/// Whether one of `numbers` is in `block`, whose numbers rise.
fn meets<N: Numbers>(block: &[i64], mut numbers: N) -> bool
    requires { IsSorted int_cmp block.now }
    ensures { result ≡ has (holds_one block.now) (N.left numbers) }
{
    while let Some(number) = numbers.take_first() {
        if holds(block, number) {
            return true;
        }
    }
    false
}

/// Takes the numbers of a block off the front.
fn fill<N: Numbers>(block: &mut ArrayVec<i64, 8192>, numbers: &mut N)
    requires { block.old.items ≡ [] }
    ensures { IsTaken (N.left numbers.old) block.new.items (N.left numbers.new) }
{
    for _turn in 0..BLOCK {
        match numbers.take_first() {
            None => return,
            Some(number) => block.push(number),
        }
    }
}

/// Takes the numbers of a block, sorted, while they are distinct.
fn fill_apart<N: Numbers>(block: &mut ArrayVec<i64, 8192>, numbers: &mut N) -> bool
    requires { block.old.items ≡ [] }
    ensures { MatchBool result (IsFilled (N.left numbers.old) block.new.items (N.left numbers.new)) (distinct int_eq (N.left numbers.old) ≡ false) }
{
    fill(block, numbers);
    block.as_mut_slice().sort_unstable();
    !has_same_next(block.as_slice())
}

/// Whether no two of many numbers are equal.
#[inline(never)]
fn many_distinct<N: Numbers>(mut numbers: N) -> bool
    ensures { result ≡ distinct int_eq (N.left numbers) }
{
    let mut block = ArrayVec::new();
    loop {
        block.clear();
        if !fill_apart(&mut block, &mut numbers) {
            return false;
        }
        if block.is_empty() {
            return true;
        }
        if meets(block.as_slice(), numbers) {
            return false;
        }
    }
}

/// Whether `number` is in `block`. It goes through the whole block, which several numbers at a time pass at once.
fn is_among(block: &[i64], number: i64) -> bool
    ensures { result ≡ has (λ held. int_eq held number) block.now }
{
    let mut found = false;
    for held in block {
        found |= *held == number;
    }
    found
}

/// Whether no two of `numbers` are equal. It takes no memory.
#[inline(never)]
pub fn all_distinct<N: Numbers>(numbers: N) -> bool
    ensures { result ≡ distinct int_eq (N.left numbers) }
{
    let mut block = ArrayVec::<i64, 256>::new();
    let mut rest = numbers;
    for _turn in 0..FEW {
        match rest.take_first() {
            None => return true,
            Some(number) => {
                if is_among(block.as_slice(), number) {
                    return false;
                }
                block.push(number);
            }
        }
    }
    many_distinct(numbers)
}

/// Takes the numbers of a block, sorted.
fn fill_sorted<N: Numbers>(block: &mut ArrayVec<i64, 8192>, numbers: &mut N)
    requires { block.old.items ≡ [] }
    ensures { IsOrdered (N.left numbers.old) block.new.items (N.left numbers.new) }
{
    fill(block, numbers);
    block.as_mut_slice().sort_unstable();
}

/// The numbers that are not in `block`, whose numbers rise.
fn keep_others(numbers: &[i64], block: &[i64], kept: &mut ArrayVec<i64, 8192>)
    requires none { kept.old.items ≡ [] }
    requires few { length numbers.now ≤ 8192 }
    requires sorted { IsSorted int_cmp block.now }
    ensures { kept.new.items ≡ without block.now numbers.now }
{
    for number in numbers {
        if holds(block, *number) {
            continue;
        }
        kept.push(*number);
    }
}

/// Whether each number of a block is one of the others. The block is of no use any more.
#[inline(never)]
fn is_covered<M: Numbers>(missing: &mut ArrayVec<i64, 8192>, mut others: M) -> bool
    ensures { result ≡ all (holds_one (M.left others)) missing.old.items }
{
    let mut block = ArrayVec::new();
    let mut kept = ArrayVec::new();
    loop {
        if missing.is_empty() {
            return true;
        }
        block.clear();
        fill_sorted(&mut block, &mut others);
        if block.is_empty() {
            return false;
        }
        kept.clear();
        keep_others(missing.as_slice(), block.as_slice(), &mut kept);
        mem::swap(missing, &mut kept);
    }
}

/// Whether each number is one of the others. It takes no memory.
#[inline(never)]
pub fn all_among<N: Numbers, M: Numbers>(mut numbers: N, others: M) -> bool
    ensures { result ≡ all (holds_one (M.left others)) (N.left numbers) }
{
    let mut block = ArrayVec::new();
    loop {
        block.clear();
        fill(&mut block, &mut numbers);
        if block.is_empty() {
            return true;
        }
        if !is_covered(&mut block, others) {
            return false;
        }
    }
}
