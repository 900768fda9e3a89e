// The builder of tables: from the bytes of a rule book to the five tables, one row of 256 entries at a time.
#![tactic(auto)]

ghost use Rattle.std.specs.Prelude.{◌≡◌, Bool, ℕ, suc, ◌+◌, ◌*◌, ◌%◌, ◌<◌, ◌≤◌, length, get_or, set, take, drop, true, ◌&&◌, eqb, ltb};
ghost use Rattle.sets.specs.Sets.{has, set_of, set_where};
ghost use Rattle.sets.specs.Table.{row_words, rules_at};
ghost use Rattle.std.specs.Int.Bits.{bit_or};
ghost use Rattle.meaning.specs.Rules.{fits_at};
ghost use Rattle.meaning.specs.Step.{next_live, finished};
ghost use Rattle.book.specs.Limits.{most_rules, most_rows};
ghost use Rattle.book.specs.Meant.{rules_held};
ghost use Rattle.lent.specs.Lent.{buffers_of, IsSame};
ghost use Rattle.promised.specs.Promise.{Promise};
ghost use Rattle.build.specs.Sets.{Within};
ghost use Rattle.build.specs.Course.{Leads, Descends, chain_of, Chained, RowsReady};
ghost use Rattle.build.specs.Course.{others_of, sides, SameRows, Found, Rising, Added};
ghost use Rattle.build.specs.Course.{InHand, onward, RowOf, Place, RowFilled, Sane, RowBuilt, EveryRow, AllFilled, Makes};

use bits::Members;
use book::Book;
use lent::{Buffers, NO_ENTRY};
use promised::BuildRefusal;
use words::{Set, WORDS};

// ---- sets of rules

// Those of a word of a set, whose first is rule `base`, that are below `rules` and pass the test.
fn word_of<F: Fn(usize) -> bool>(word: u64, base: usize, rules: usize, test: &F) -> u64
    requires few { base + 64 ≤ most_rules }
    requires callable { (k : ℕ) → k < rules → F.pre test.now k }
    ensures passed { (p : ℕ → Bool) → ((k : ℕ) (t : Bool) → k < rules → F.post test.now k t → t ≡ p k)
        → (b : ℕ) → b < 64 → has result b ≡ (ltb (base + b) rules && p (base + b) && has word b) }
{
    let mut those: u64 = 0;
    for bit in Members(word) {
        let k = base + bit as usize;
        if k < rules && test(k) {
            those = bits::with(those, bit);
        }
    }
    those
}

// Those of a set of rules that are below `rules` and pass the test.
fn those_of<F: Fn(usize) -> bool>(set: &[u64], rules: usize, test: F) -> Set
    requires few { rules ≤ most_rules }
    requires callable { (k : ℕ) → k < rules → F.pre test k }
    ensures passed { (p : ℕ → Bool) → ((k : ℕ) (t : Bool) → k < rules → F.post test k t → t ≡ p k) → set_of result ≡ set_where rules (λ k. p k && has (set_of set.now) k) }
    ensures long { length result ≡ row_words }
{
    let mut those = words::none();
    for i in 0..WORDS {
        those[i] = word_of(words::word(set, i), 64 * i, rules, &test);
    }
    those
}

// Whether rule k has a symbol at `held` and the byte fits it. `Within` is asked here and below, as it can be no ghost field of Book: its fields are
// public, and `read` promises the record itself.
fn fits_at(book: &Book, held: usize, byte: u8, k: usize) -> bool
    requires { Within book.now × (k < book.now.rules) }
    ensures { result ≡ fits_at (rules_held book.now) byte k held }
{
    held < usize::from(book.lengths[k]) && book.fits(byte, book.symbols[Book::SYMBOLS * k + held])
}

// The first n of the numbers below 64, as a set.
fn below(n: usize) -> u64
    ensures { (b : ℕ) → b < 64 → b < n → has result b ≡ true }
{
    if n < 64 { (1 << n) - 1 } else { u64::MAX }
}

// All rules, as a set, and no number past them, which would be asked for nothing.
fn all_of(rules: usize) -> Set
    requires { rules ≤ most_rules }
    ensures all { (k : ℕ) → k < rules → has (set_of result) k ≡ true }
    ensures long { length result ≡ row_words }
{
    let mut all = words::none();
    for i in 0..WORDS {
        all[i] = below(rules.saturating_sub(64 * i));
    }
    all
}

// Those of a set of rules that go on with the byte, from a row with this held length.
fn fitting(book: &Book, held: usize, set: &[u64], byte: u8) -> Set
    requires { Within book.now }
    ensures { (set_of result ≡ set_where book.now.rules (λ k. fits_at (rules_held book.now) byte k held && has (set_of set.now) k)) × (length result ≡ row_words) }
{
    those_of(set, book.rules, |k| fits_at(book, held, byte, k))
}

// The rules that go on with the byte, from a row with this held length and live set: of all rules, where nothing is held.
fn extended(book: &Book, held: usize, live: &[u64], byte: u8) -> Set
    requires { Within book.now }
    ensures { (set_of result ≡ next_live (rules_held book.now) held (set_of live.now) byte) × (length result ≡ row_words) }
{
    if held == 0 {
        return fitting(book, held, &all_of(book.rules), byte);
    }
    fitting(book, held, live, byte)
}

// The rules of the set that have just `held` symbols.
fn ended(book: &Book, held: usize, set: &[u64]) -> Set
    requires { Within book.now }
    ensures { (set_of result ≡ finished (rules_held book.now) held (set_of set.now)) × (length result ≡ row_words) }
{
    those_of(set, book.rules, |k| usize::from(book.lengths[k]) == held)
}

// The remainder of a set, as one number, by 4,093: the words are its digits to the base 2 ^ 64, which leaves 3,888.
fn remainder(set: &[u64]) -> usize
    ensures { result ≡ set_of set.now % 4093 }
{
    let mut rest: u64 = 0;
    for word in set.iter().rev() {
        rest = (3888 * rest + *word % 4093) % 4093;
    }
    rest as usize
}

// The words of row i in a table of sets. The walk has the like (`ending`), as a public one could not ask that the row is there.
fn words_of(table: &[u64], i: usize) -> &[u64]
    requires { row_words * suc i ≤ length table.now }
    ensures { result.now ≡ take row_words (drop (row_words * i) table.now) }
{
    let start = WORDS * i;
    &table[start..start + WORDS]
}

// ---- by falls

// The row that a byte leads to from `row`, by falls.
fn follow(goto: &[u16], fall: &[u16], row: u16, byte: usize) -> u16
    requires descends { Descends goto.now fall.now row }
    requires is_byte { byte < 256 }
    ensures { Leads goto.now fall.now byte row result }
{
    let mut r = usize::from(row);
    while goto[256 * r + byte] == NO_ENTRY {
        r = usize::from(fall[r]);
    }
    goto[256 * r + byte]
}

// ---- the rows

// What a row is known by.
#[derive(Drop)]
struct Key {
    held: u8,
    live: Set,
    fall: u16,
}

impl Key {
    // Its chain: the fall and the live set count, so that a chain is short where many rows have one fall or one live set.
    fn chain(&self) -> usize
        ensures { (result ≡ chain_of self.now.fall (set_of self.now.live)) × (result < most_rows) }
    {
        (usize::from(self.fall) + remainder(&self.live)) % Book::ROWS
    }
}

// The rows in chains: the newest row of each chain, and for each row the next older one in its chain. Row 0 is in none, so 0 ends a
// chain: an option would be two numbers a row in the search.
#[derive(Drop)]
struct Chains {
    first: [u16; Book::ROWS],
    older: [u16; Book::ROWS],
}

impl Chains {
    // No row but 0.
    fn empty() -> Chains
        ensures { (chain : ℕ → ℕ) → Chained result chain 1 }
    {
        Chains {
            first: [0; Book::ROWS],
            older: [0; Book::ROWS],
        }
    }

    // Row n heads the chain g.
    fn put(&mut self, g: usize, n: usize)
        requires { (g < most_rows) × (n < most_rows) }
        ensures first { self.new.first ≡ set self.old.first g n }
        ensures older { self.new.older ≡ set self.old.older n (get_or self.old.first g 0) }
    {
        self.older[n] = self.first[g];
        self.first[g] = n as u16;
    }
}

// The rows of a book so far, but for goto, of which one row is lent: how many there may be, how many there are (a count beside them, as nothing
// allocates), and their chains. That they are ready is no ghost field, as a new row is written through four references, one after the other. That
// book and room stay (`SameRows`) is said by each function, as a `&mut` promises nothing of what it leaves.
#[derive(Drop)]
struct Rows<'a> {
    book: &'a Book,
    fall: &'a mut [u16],
    held: &'a mut [u8],
    live: &'a mut [u64],
    out: &'a mut [u64],
    lent: usize,
    used: usize,
    chains: Chains,
}

impl Rows<'_> {
    // Whether row i has this live set and this fall.
    fn is_key(&self, i: usize, key: &Key) -> bool
        requires { (i < length self.now.fall.now) × (row_words * suc i ≤ length self.now.live.now) }
        ensures { result ≡ (eqb (rules_at self.now.live.now i) (set_of key.now.live) && eqb (get_or self.now.fall.now i 0) key.now.fall) }
    {
        words::same(words_of(self.live, i), &key.live) && self.fall[i] == key.fall
    }

    // The row with this key. The rows of a chain stand newest first; the held lengths ascend, so it ends where one is below the key's.
    fn find(&self, key: &Key) -> Option<usize>
        requires ready { RowsReady self.now }
        requires rising { Rising self.now.held.now self.now.used key.now.held }
        ensures { Found (others_of self.now) self.now.used key.now.held (set_of key.now.live) key.now.fall result }
    {
        let mut i = usize::from(self.chains.first[key.chain()]);
        while i != 0 {
            if self.held[i] < key.held {
                return None;
            }
            if self.is_key(i, key) {
                return Some(i);
            }
            i = usize::from(self.chains.older[i]);
        }
        None
    }

    // What ends in a row with this key: the rules of its live set that have so many symbols, and what ends in the row that it falls to.
    fn ends(&self, key: &Key) -> Set
        requires ready { RowsReady self.now }
        requires falls_in { key.now.fall < self.now.used }
        ensures { (set_of result ≡ bit_or (finished (rules_held self.now.book.now) key.now.held (set_of key.now.live)) (rules_at self.now.out.now key.now.fall))
            × (length result ≡ row_words) }
    {
        let mut all = ended(self.book, usize::from(key.held), &key.live);
        words::unite(&mut all, words_of(self.out, usize::from(key.fall)));
        all
    }

    // The rules that go on with the byte from row s.
    fn onward(&self, s: usize, byte: u8) -> Set
        requires ready { RowsReady self.now }
        requires row_in { s < self.now.used }
        ensures { (set_of result ≡ onward (rules_held self.now.book.now) (others_of self.now) s byte) × (length result ≡ row_words) }
    {
        extended(
            self.book,
            usize::from(self.held[s]),
            words_of(self.live, s),
            byte,
        )
    }

    // The complete row of the fall of row s: for each byte the row that it leads to.
    fn via_row(&self, goto: &[u16], s: usize) -> [u16; 256]
        requires { (s < length self.now.fall.now) × Descends goto.now self.now.fall.now (get_or self.now.fall.now s 0) }
        ensures { (c : ℕ) → c < 256 → Leads goto.now self.now.fall.now c (get_or self.now.fall.now s 0) (get_or result c 0) }
    {
        let mut via = [0; 256];
        for c in 0..256 {
            via[c] = follow(goto, self.fall, self.fall[s], c);
        }
        via
    }

    // A new row with this key, which heads its chain.
    fn add(&mut self, key: &Key) -> u16
        requires falls_in { key.now.fall < self.old.used }
        requires room { self.old.used < self.old.lent }
        requires ready { RowsReady self.old }
        ensures row { (result ≡ self.old.used) × (self.new.used ≡ self.old.used + 1) }
        ensures added { Added (finished (rules_held self.old.book.now) key.now.held (set_of key.now.live)) self.old.used key.now.held (set_of key.now.live) key.now.fall
            (others_of self.old) (others_of self.new) }
        ensures ready { RowsReady self.new }
        ensures same { SameRows self.old self.new }
    {
        let n = self.used;
        let all = self.ends(key);
        self.fall[n] = key.fall;
        self.held[n] = key.held;
        lent::store(self.live, n, &key.live);
        lent::store(self.out, n, &all);
        self.chains.put(key.chain(), n);
        self.used = n + 1;
        n as u16
    }

    // The row with this key: one there is, or a new one. None where there is no room for it.
    fn row_of(&mut self, key: &Key) -> Option<u16>
        requires falls_in { key.now.fall < self.old.used }
        requires rising { Rising self.old.held.now self.old.used key.now.held }
        requires ready { RowsReady self.old }
        ensures course { RowOf (finished (rules_held self.old.book.now) key.now.held (set_of key.now.live)) self.old.lent self.old.used key.now.held (set_of key.now.live) key.now.fall
            (others_of self.old) (others_of self.new) self.new.used result }
        ensures ready { RowsReady self.new }
        ensures same { SameRows self.old self.new }
    {
        if let Some(i) = self.find(key) {
            return Some(i as u16);
        }
        if self.lent <= self.used {
            return None;
        }
        Some(self.add(key))
    }

    // The entry of row s for one byte, where `via` is the row that the fall of s leads to on it.
    fn place(&mut self, s: usize, byte: u8, via: u16) -> Option<u16>
        requires in_hand { InHand self.old.used s (others_of self.old) }
        requires via_in { via < self.old.used }
        requires ready { RowsReady self.old }
        ensures course { Place (rules_held self.old.book.now) self.old.lent s byte via self.old.used (others_of self.old) (others_of self.new) self.new.used result }
        ensures ready { RowsReady self.new }
        ensures same { SameRows self.old self.new }
    {
        let live = self.onward(s, byte);
        if words::is_empty(&live) {
            return Some(if s == 0 { 0 } else { NO_ENTRY });
        }
        let held = self.held[s] + 1;
        self.row_of(&Key {
            held,
            live,
            fall: via,
        })
    }

    // The 256 entries of row s. None where there is no room for a row.
    fn fill_row(&mut self, row: &mut [u16], s: usize, via: &[u16; 256]) -> Option<()>
        requires in_hand { InHand self.old.used s (others_of self.old) }
        requires row_long { length row.old ≡ 256 }
        requires via_in { ((c : ℕ) → c < 256 → get_or via.now c 0 < self.old.used) }
        requires ready { RowsReady self.old }
        ensures course { RowFilled (rules_held self.old.book.now) self.old.lent s via.now row.old self.old.used (others_of self.old) row.new (others_of self.new)
            self.new.used result }
        ensures ready { RowsReady self.new }
        ensures same { SameRows self.old self.new }
    {
        for c in 0..256 {
            row[c] = self.place(s, c as u8, via[c])?;
        }
        Some(())
    }

    // Row s, whole: its part of goto is lent to the row filler.
    fn build_row(&mut self, goto: &mut [u16], s: usize) -> Option<()>
        requires sane { Sane self.old.lent self.old.used goto.old (others_of self.old) }
        requires row_in { s < self.old.used }
        requires rising { Rising self.old.held.now self.old.used (get_or self.old.held.now s 0 + 1) }
        requires ready { RowsReady self.old }
        ensures course { RowBuilt (rules_held self.old.book.now) self.old.lent self.old.used s goto.old (others_of self.old) goto.new (others_of self.new)
            self.new.used result }
        ensures ready { RowsReady self.new }
        ensures same { SameRows self.old self.new }
    {
        let via = self.via_row(goto, s);
        let start = 256 * s;
        self.fill_row(&mut goto[start..start + 256], s, &via)
    }

    // Every row, in order, until none is left. Rows are added on the way, so no range has them.
    fn fill_all(&mut self, goto: &mut [u16]) -> Option<()>
        requires sane { Sane self.old.lent self.old.used goto.old (others_of self.old) }
        requires one { self.old.used ≡ 1 }
        requires ready { RowsReady self.old }
        ensures course { EveryRow (rules_held self.old.book.now) self.old.lent goto.old (others_of self.old) goto.new (others_of self.new) self.new.used result }
        ensures same { SameRows self.old self.new }
    {
        let mut s: usize = 0;
        while s < self.used {
            self.build_row(goto, s)?;
            s += 1;
        }
        Some(())
    }
}

// ---- the whole

// Fills the buffers, of which every entry is 0, and answers how many rows are used. None where there is no room for them.
fn fill(book: &Book, buffers: &mut Buffers, lent: usize) -> Option<usize>
    requires within { Within book.now }
    requires sane { Sane lent 1 buffers.old.goto.now (sides (buffers_of buffers.old)) }
    ensures course { AllFilled (rules_held book.now) lent (buffers_of buffers.old) (buffers_of buffers.new) result }
    ensures same { IsSame buffers.old buffers.new }
{
    let mut rows = Rows {
        book,
        fall: buffers.fall,
        held: buffers.held,
        live: buffers.live,
        out: buffers.out,
        lent,
        used: 1,
        chains: Chains::empty(),
    };
    rows.fill_all(buffers.goto)?;
    Some(rows.used)
}

// The tables of a book that was read, from nothing; every entry is 0 where there is no room for them.
fn make(book: &Book, buffers: &mut Buffers) -> Result<usize, BuildRefusal>
    requires { Within book.now }
    ensures course { Makes (rules_held book.now) (buffers_of buffers.old) (buffers_of buffers.new) result }
    ensures same { IsSame buffers.old buffers.new }
{
    let lent = buffers.lent();
    buffers.zero();
    if lent == 0 {
        return Err(BuildRefusal::NoRoom(0));
    }
    match fill(book, buffers, lent) {
        Some(rows) => Ok(rows),
        None => {
            buffers.zero();
            Err(BuildRefusal::NoRoom(lent))
        }
    }
}

// Builds the tables of the book that the bytes hold.
pub fn build(bytes: &[u8], buffers: &mut Buffers) -> Result<usize, BuildRefusal>
    ensures promise { Promise bytes.now (buffers_of buffers.old) (buffers_of buffers.new) result }
    ensures same { IsSame buffers.old buffers.new }
{
    let read = reader::read(bytes);
    read.answer?;
    make(&read.book, buffers)
}
