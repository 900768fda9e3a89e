// Sets of more numbers as several words, lowest first; a row of a table of sets has four.
#![tactic(auto)]

ghost use Rattle.std.specs.Prelude.{◌≡◌, ◌&&◌, ◌≤◌, eqb, length, get_or, replicate};
ghost use Rattle.std.specs.Int.Bits.{bit_or};
ghost use Rattle.sets.specs.Sets.{set_of, united};
ghost use Rattle.sets.specs.Table.{row_words};

// How many words a row of a table of sets has.
pub const WORDS: usize = 4;

// The set of a row.
pub type Set = [u64; WORDS];

// The set with nothing in it.
pub fn none() -> Set
    ensures all_empty { result ≡ replicate row_words 0 }
    ensures words { WORDS ≡ row_words }
{
    [0; WORDS]
}

// The word at i, or 0 where there is none.
pub fn word(words: &[u64], i: usize) -> u64
    ensures { result ≡ get_or words.now i 0 }
{
    words.get(i).copied().unwrap_or(0)
}

// Whether nothing is in the set.
pub fn is_empty(words: &[u64]) -> bool
    ensures { result ≡ eqb (set_of words.now) 0 }
{
    words.iter().all(|w| *w == 0)
}

// Whether the two are one set, in as many words.
pub fn same(a: &[u64], b: &[u64]) -> bool
    ensures { result ≡ (eqb (length a.now) (length b.now) && eqb (set_of a.now) (set_of b.now)) }
{
    *a == *b
}

// What is in the second set joins the first; what is past the words of the first is left out.
pub fn unite(words: &mut [u64], more: &[u64])
    ensures each { words.new ≡ united words.old more.now }
    ensures as_sets { length more.now ≤ length words.old → set_of words.new ≡ bit_or (set_of words.old) (set_of more.now) }
{
    for i in 0..words.len() {
        words[i] = bits::union(words[i], word(more, i));
    }
}
