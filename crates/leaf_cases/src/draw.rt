// Books, profiles and records out of keys.
use drawn::{Key, Page, at};
use leaf_totals::LeafTotals;

// A book is its key and how many rules it has: each rule's symbols are drawn anew where they are wanted.
#[derive(Clone, Copy)]
pub struct Rules {
    pub key: Key,
    pub count: u16,
}

impl Rules {
    // ---- books

    // How many symbols rule k has.
    pub fn length_of(&self, k: u16) -> u16 {
        let most = 2 + self.key.pick(0, 3);
        1 + self.key.pick(10 + usize::from(k), most) as u16
    }

    // Its symbol j: a byte, or one of the three pictures with 256 more.
    pub fn symbol_of(&self, k: u16, j: u16) -> u16 {
        let own = self.key.at(300 + usize::from(k));
        let j = usize::from(j);
        if own.is_first(8 + j, 4) {
            256 + own.pick(16 + j, 3) as u16
        } else {
            own.letter(j).into()
        }
    }

    // The pictures a, b; b, c; and 1, `;`; then the rules.
    pub fn book(&self) -> Page {
        let mut page = Page::empty();
        for picture in [b"ab", b"bc", b"1;"] {
            page.field(0x50, picture);
        }
        for k in 0..self.count {
            page.rule(self.length_of(k), |j| self.symbol_of(k, j));
        }
        page
    }

    // ---- profiles

    // Up to five lines; half of the profiles end without LF.
    pub fn profile(&self, own: Key) -> Page {
        let mut page = Page::empty();
        for i in 0..own.pick(0, 6) {
            self.line(&mut page, own.at(2 + i));
        }
        page.truncate(page.size().saturating_sub(own.pick(1, 2)));
        page
    }

    // Two frames, or what is one as no `;` parts them; and a count of one digit, or rarely none.
    fn line(&self, page: &mut Page, own: Key) {
        self.frame(page, own.at(1));
        page.push(at(b";;;; a", own.pick(2, 6)));
        self.frame(page, own.at(3));
        page.push(b' ');
        page.push(at(b"012345678901234567890123456789x", own.pick(4, 31)));
        page.push(b'\n');
    }

    // Bytes that fit one of the rules; sometimes one more or less.
    fn frame(&self, page: &mut Page, own: Key) {
        let k = (own.pick(10, self.count.into()) % 65536) as u16;
        let size = match own.pick(11, 9) {
            7 => self.length_of(k).saturating_add(1),
            8 => self.length_of(k).saturating_sub(1),
            _ => self.length_of(k),
        };
        for j in 0..size {
            page.push(fitting(self.symbol_of(k, j), own.letter(j.into())));
        }
    }
}

// A byte that fits the symbol.
fn fitting(symbol: u16, letter: u8) -> u8 {
    match symbol {
        256 => b'a' + letter % 2,
        257 => b'b' + letter % 2,
        258 => at(b"1;", usize::from(letter % 2)),
        _ => (symbol % 256) as u8,
    }
}

// ---- records

// Nothing; small totals, many of them equal; or large ones, with a whole about the limit.
pub fn record(key: Key) -> LeafTotals {
    let most = match key.pick(1, 6) {
        0 => 70368744177664,
        1 | 2 => 4,
        _ => 1,
    };
    let mut totals = [0; 256];
    for i in 0..256 {
        totals[i] = key.pick(2 + i, most) as u64;
    }
    LeafTotals {
        totals,
        unnamed: key.pick(258, most) as u64,
        profiles: key.pick(259, 1024),
    }
}
