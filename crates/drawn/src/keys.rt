// The numbers that everything is drawn from.
ghost use Rattle.std.specs.Prelude.{◌≡◌, ◌+◌, ◌%◌, ◌<◌, ◌≤◌, min, max, true};

// A key has a key of its own for each place, and there a number below any n.
#[derive(Clone, Copy)]
pub struct Key(pub u64);

// The letters, ascending.
const LETTERS: [u8; 5] = *b"1;abc";

impl Key {
    // The key of a book's number.
    pub fn of_book(number: usize) -> Key
        ensures { result.0 < 1152921504606846976 }
    {
        Key(Key(number as u64).pick(0, 1152921504606846976) as u64)
    }

    // The key of its own for a place. Its remainder by 4 is the first one's.
    pub fn at(self, place: usize) -> Key
        ensures { result.0 % 4 ≡ self.0 % 4 }
    {
        let begin = (place as u64 % 1000000 + 1) * 2654435761;
        let end = scatter(scatter(self.0.wrapping_add(begin)));
        Key(end / 4 * 4 + self.0 % 4)
    }

    // The number below n at a place; 0 where there is none.
    pub fn pick(self, place: usize, n: usize) -> usize
        ensures below { 0 < n → result < n }
        ensures most { result ≤ n }
    {
        if n == 0 {
            0
        } else {
            (self.at(place).0 >> 11) as usize % n
        }
    }

    // Whether the first of n is drawn at a place: one time in n.
    pub fn is_first(self, place: usize, n: usize) -> bool
        ensures { n ≤ 1 → result ≡ true }
    {
        self.pick(place, n) == 0
    }

    // The letter at a place. A key has those from its remainder by 4 on, so that few letters make many overlaps.
    pub fn letter(self, place: usize) -> u8
        ensures { (49 ≤ result) × (result ≤ 99) }
    {
        let low = (self.0 % 4) as usize;
        LETTERS[low + self.pick(place, 5 - low)]
    }

    // The symbol at a place of a rule: a letter, or one of the first pictures with 256 more.
    pub fn symbol(self, j: u16, pictures: u8) -> u16
        ensures { result < 256 + pictures }
    {
        let place = usize::from(j);
        if 0 < pictures && self.is_first(64 + place, 3) {
            256 + self.pick(place, pictures.into()) as u16
        } else {
            self.letter(place).into()
        }
    }

    // The key of rule k of a book: the book's for those much alike, and for one of four others. Two rules of one key are equal, or one opens the other.
    pub fn of_rule(self, k: usize, alike: usize) -> Key
        ensures alike { k < alike → result ≡ self }
        ensures letters { result.0 % 4 ≡ self.0 % 4 }
    {
        if k < alike || self.is_first(k.wrapping_add(2000), 4) {
            self
        } else {
            self.at(k.wrapping_add(3000))
        }
    }
}

// How many rules a large book has: as many as the four words of a set hold and one less, one more than one or three words hold, 190, and another number.
pub fn many_rules(turn: usize, other: u16) -> u16
    ensures { (min 65 other ≤ result) × (result ≤ max 256 other) }
{
    match turn % 6 {
        0 => 256,
        1 => 65,
        2 => 193,
        3 => 190,
        4 => 255,
        _ => other,
    }
}

fn step(x: u64) -> u64 {
    let a = x ^ (x << 13);
    let b = a ^ (a >> 7);
    b ^ (b << 17)
}

fn scatter(x: u64) -> u64 {
    let y = (x % 4294967296) * 2654435761;
    step(y ^ (x >> 32))
}
