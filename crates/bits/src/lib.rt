// Sets of numbers below 64 as one word: k is in the set where the bit k is set.
#![tactic(auto)]

ghost use Rattle.std.specs.Prelude.{◌≡◌, ◌+◌, ◌*◌, length, get_or, drop};
ghost use Rattle.std.specs.Int.Bits.{bit_or};
ghost use Rattle.std.specs.Iterator.{item_count};
ghost use Rattle.bits.specs.Passing.{Passes};
ghost use Rattle.sets.specs.Sets.{has as is_in, adding, members, plus_each, reports, with_room, replaced};

// Whether k is in the set.
pub fn has(set: u64, k: u32) -> bool
    ensures { result ≡ is_in set k }
{
    k < 64 && (set >> k) & 1 == 1
}

// The set with k, or the set as it is where k is no number below 64.
pub fn with(set: u64, k: u32) -> u64
    ensures { result ≡ adding 64 set k }
{
    if k < 64 { set | (1 << k) } else { set }
}

// What is in a or in b.
pub fn union(a: u64, b: u64) -> u64
    ensures { result ≡ bit_or a b }
{
    a | b
}

// How many are in the set. Most are empty, and to ask takes less than to count.
pub fn size(set: u64) -> u32
    ensures { result ≡ length (members 64 set) }
{
    if set == 0 { 0 } else { set.count_ones() }
}

// The least of the set. Where it is empty 64, and no option: the promise covers every set, and the paper's trailing zeros give this.
#[tactic(auto, using(sets::proofs::Members::first_is))]
pub fn first(set: u64) -> u32
    ensures { result ≡ get_or (members 64 set) 0 64 }
{
    set.trailing_zeros()
}

// The set without its least.
pub fn rest(set: u64) -> u64
    ensures { members 64 result ≡ drop 1 (members 64 set) }
{
    set & set.saturating_sub(1)
}

// The members of a set, ascending: what is left of it.
#[derive(Drop)]
pub struct Members(pub u64);

impl Iterator for Members {
    type Item = u32;

    ghost next_gives = { λ s r t. Passes s.0 r t.0 };

    ghost remaining = { λ s. item_count (members 64) s.0 };

    fn next(&mut self) -> Option<u32> {
        if self.0 == 0 {
            return None;
        }
        let least = first(self.0);
        self.0 = rest(self.0);
        Some(least)
    }
}

// Writes (end, base + k) at out[at..] for each k of the set, ascending, as many pairs as there is room for, and answers where the next would go.
pub fn write_members(set: u64, base: u16, end: u32, out: &mut [u32], at: usize) -> usize
    ensures moved { result ≡ at + 2 * length (with_room (length out.old) at set) }
    ensures wrote { out.new ≡ replaced at result (reports end (plus_each base (with_room (length out.old) at set))) out.old }
{
    if out.len() < at {
        return at;
    }
    // The place goes along by hand: it is the answer.
    let mut to = at;
    for k in Members(set) {
        if out.len() - to < 2 {
            break;
        }
        out[to] = end;
        out[to + 1] = u32::from(base) + k;
        to += 2;
    }
    to
}
