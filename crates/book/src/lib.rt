// The record of a rule book: its limits, the empty book, one picture and one rule more, and whether a byte fits a symbol.
#![tactic(auto)]

ghost use Rattle.std.specs.Prelude.{◌≡◌, ◌+◌, ◌/◌, ◌<◌, ◌≤◌, length};
ghost use Rattle.std.proofs.lemmas.List.Edits.{sets};
ghost use Rattle.book.specs.Limits.{most_pictures, most_rules, most_symbols, places, most_rows, most_bytes};
ghost use Rattle.book.specs.Content.{nothing, record_of};
ghost use Rattle.book.specs.Grown.{mark, symbols_of, picture_more, rule_more};
ghost use Rattle.book.specs.Meant.{SaysWhetherFits};

// The pictures with each byte value, as a set: picture p at bit p.
pub type Pictures = [u16; 256];

// A rule book, once read. A symbol is 256 times its kind plus its second byte; rule k's symbol j is at SYMBOLS * k + j.
#[derive(Drop)]
pub struct Book {
    pub symbols: [u16; Book::PLACES],
    pub lengths: [u8; Book::RULES],
    pub picture: Pictures,
    pub pictures: u8,
    pub rules: usize,
}

impl Book {
    // The most pictures: as many as a set of the map has bits.
    pub const PICTURES: u8 = 16;

    pub const RULES: usize = 256;

    // The most symbols of a rule.
    pub const SYMBOLS: usize = 64;

    pub const PLACES: usize = Book::RULES * Book::SYMBOLS;

    // The most rows of tables.
    pub const ROWS: usize = 4096;

    // The most bytes of a text or a profile.
    pub const TEXT: usize = 1048576;

    // The book with no picture and no rule.
    pub fn empty() -> Book
        ensures holds_nothing { result ≡ record_of nothing }
        ensures pictures { Book.PICTURES ≡ most_pictures }
        ensures rules { Book.RULES ≡ most_rules }
        ensures symbols { Book.SYMBOLS ≡ most_symbols }
        ensures all_places { Book.PLACES ≡ places }
        ensures rows { Book.ROWS ≡ most_rows }
        ensures bytes { Book.TEXT ≡ most_bytes }
    {
        Book {
            symbols: [0; Book::PLACES],
            lengths: [0; Book::RULES],
            picture: [0; 256],
            pictures: 0,
            rules: 0,
        }
    }

    // The next picture, whose bytes are those of `body`. There is none past the limit.
    #[tactic(auto, unfolding(crate::specs::Grown::picture_more))]
    pub fn add_picture(&mut self, body: &[u8])
        ensures { self.new ≡ picture_more self.old body.now }
    {
        if Book::PICTURES <= self.pictures {
            return;
        }
        mark(&mut self.picture, self.pictures, body);
        self.pictures += 1;
    }

    // The next rule, whose symbols are the pairs of `body`. There is none past the limit, and none with more symbols than a rule may have.
    #[tactic(auto, unfolding(crate::specs::Grown::has_room, crate::specs::Grown::symbols_with, crate::specs::Grown::lengths_with, crate::specs::Grown::rule_more))]
    pub fn add_rule(&mut self, body: &[u8])
        ensures { self.new ≡ rule_more self.old body.now }
    {
        if Book::RULES <= self.rules {
            return;
        }
        if 2 * Book::SYMBOLS < body.len() {
            return;
        }
        store(&mut self.symbols, Book::SYMBOLS * self.rules, body);
        self.lengths[self.rules] = (body.len() / 2) as u8;
        self.rules += 1;
    }

    // Does the byte `c` fit the symbol?
    #[tactic(auto, unfolding(meaning::specs::Rules::fits, crate::specs::Meant::rules_in, crate::specs::Meant::member_in))]
    pub fn fits(&self, c: u8, symbol: u16) -> bool
        ensures { SaysWhetherFits self.now.picture c symbol result }
    {
        if symbol < 256 {
            return u16::from(c) == symbol;
        }
        let pictures = self.picture[usize::from(c)];
        bits::has(u64::from(pictures), u32::from(symbol - 256))
    }
}

// The picture `p` in the set of each byte of `body`.
#[tactic(auto, using(crate::proofs::Stores::marks))]
fn mark(map: &mut Pictures, p: u8, body: &[u8])
    requires { p < most_pictures }
    ensures { map.new ≡ mark p map.old body.now }
{
    for c in body {
        map[usize::from(*c)] |= 1 << p;
    }
}

// The pairs of `body` as symbols, from the place `from` on.
#[tactic(auto, using(crate::proofs::Stores::stores))]
fn store(room: &mut [u16; Book::PLACES], from: usize, body: &[u8])
    requires { from + length body.now / 2 ≤ places }
    ensures { room.new ≡ sets room.old from (symbols_of body.now) }
{
    for (j, pair) in body.chunks_exact(2).enumerate() {
        room[from + j] = u16::from_be_bytes([pair[0], pair[1]]);
    }
}
