// Which bytes fit which symbols, of a book with rules of at most 8 symbols.
ghost use Rattle.std.specs.Prelude.{◌<◌};

use crate::judge::Sound;

// A set of rules: 64 to a word.
#[derive(Clone, Copy, PartialEq, Eq)]
pub struct Rules([u64; 4]);

impl Rules {
    pub fn none() -> Rules {
        Rules([0; 4])
    }

    pub fn words(&self) -> &[u64] {
        &self.0
    }

    pub fn is_empty(&self) -> bool {
        self.0 == [0; 4]
    }

    // Those and rule k.
    fn with(self, k: usize) -> Rules {
        let mut words = self.0;
        words[k / 64 % 4] |= 1 << (k % 64);
        Rules(words)
    }

    pub fn and(&self, other: &Rules) -> Rules {
        let ([a, b, c, d], [e, f, g, h]) = (self.0, other.0);
        Rules([a & e, b & f, c & g, d & h])
    }

    pub fn or(&self, other: &Rules) -> Rules {
        let ([a, b, c, d], [e, f, g, h]) = (self.0, other.0);
        Rules([a | e, b | f, c | g, d | h])
    }
}

// For each byte and each place of a rule the rules whose symbol there the byte fits; all rules; and for each length the rules of that length.
#[derive(Clone, Copy)]
pub struct Fits {
    byte: [[Rules; 8]; 256],
    pub all: Rules,
    pub length: [Rules; 9],
    // The bytes that fit other symbols than the byte before.
    is_unlike: [bool; 256],
}

impl Fits {
    pub fn of(sound: &Sound<'_>) -> Fits {
        let mut fits = Fits {
            byte: [[Rules::none(); 8]; 256],
            all: Rules::none(),
            length: [Rules::none(); 9],
            is_unlike: [true; 256],
        };
        for k in 0..sound.rules() {
            fits.add(sound, k);
        }
        for byte in 1..256 {
            let last = fits.byte[byte - 1];
            let own = fits.byte[byte];
            fits.is_unlike[byte] = own != last;
        }
        fits
    }

    // Rule k.
    fn add(&mut self, sound: &Sound<'_>, k: usize) {
        let rule = sound.rule(k);
        let length = rule.len() / 2 % 9;
        self.all = self.all.with(k);
        self.length[length] = self.length[length].with(k);
        for (j, symbol) in rule.chunks_exact(2).enumerate() {
            self.add_symbol(members(sound, symbol), j % 8, k);
        }
    }

    // Symbol j of rule k, which these bytes fit.
    fn add_symbol(&mut self, bytes: &[u8], j: usize, k: usize)
        requires { j < 8 }
    {
        for byte in bytes {
            let mut places = self.byte[usize::from(*byte)];
            places[j] = places[j].with(k);
            self.byte[usize::from(*byte)] = places;
        }
    }

    // For each place of a rule the rules whose symbol there the byte fits.
    pub fn rules_for(&self, byte: u8) -> [Rules; 8] {
        self.byte[usize::from(byte)]
    }

    pub fn is_unlike(&self, byte: u8) -> bool {
        self.is_unlike[usize::from(byte)]
    }
}

// The bytes that fit a symbol: its second byte, or the picture's.
fn members<'a>(sound: &Sound<'a>, symbol: &'a [u8]) -> &'a [u8] {
    match symbol {
        [0, second @ ..] => second,
        [_, p] => sound.picture(usize::from(*p)),
        _ => b"",
    }
}

// Whether every rule has at most 8 symbols.
pub fn is_short(sound: &Sound<'_>) -> bool {
    (0..sound.rules()).all(|k| sound.rule(k).len() <= 16)
}
