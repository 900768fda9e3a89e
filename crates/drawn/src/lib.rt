// What the comparing programs are made of: keys that everything is drawn from, books and texts of drawn bytes, reads and writes that are safe at any place,
// how often things were compared; and what the paper says of refusals, of lines and of a move over tables, written out once more. Of the proved crates it
// takes the tables of a book alone.
#![tactic(auto)]

ghost use Rattle.std.specs.Prelude.{◌≡◌, ◌+◌, ◌-◌, ◌/◌, ◌%◌, ◌^◌, ◌<◌, ◌≤◌, drop, length, slice_index, slice_set, take, HoldsAt, true, ◌↔◌};

mod keys;
mod lines;
mod page;
mod refusals;
mod report;
mod tables;

pub use keys::{Key, many_rules};
pub use lines::{Line, first_bad, lines_of};
pub use page::Page;
pub use refusals::{Lost, Reason, Refused};
pub use report::{ByNumber, Count, Differences};
pub use tables::{Moved, NO_ENTRY, Tables, judge, move_by, rows_lent};

// A place past the end reads as 0.
pub fn at<T: Copy + Default>(a: &[T], i: usize) -> T
    ensures there { i < length a.now → HoldsAt (λ x. result ≡ x) a.now i }
    ensures past { length a.now ≤ i → T.is_default result }
{
    a.get(i).copied().unwrap_or_default()
}

// Nothing is written past the end.
pub fn put<T: Drop>(a: &mut [T], i: usize, v: T)
    ensures { a.new ≡ slice_set a.old i v }
{
    if i < a.len() {
        a[i] = v;
    }
}

// Adds to what stands at a place; sums here stay small, and one that did not would wrap.
pub fn add(a: &mut [u64], i: usize, more: u64)
    ensures { a.new ≡ slice_set a.old i ((slice_index a.old i + more) % 2 ^ 64) }
{
    if i < a.len() {
        a[i] = a[i].wrapping_add(more);
    }
}

// What stands from `from` to `to`, as far as there is any.
pub fn part<T>(a: &[T], from: usize, to: usize) -> &[T]
    ensures value { result.now ≡ drop from (take to a.now) }
    ensures most { length result.now ≤ length a.now - from }
{
    let first = &a[..to.min(a.len())];
    &first[from.min(first.len())..]
}

// Number k in a set of numbers below 64: written once more, as nothing is shared with what is compared.
pub fn has(set: u64, k: usize) -> bool
    ensures { (result ≡ true) ↔ ((k < 64) × ((set / 2 ^ k) % 2 ≡ 1)) }
{
    k < 64 && (set >> k) % 2 == 1
}
