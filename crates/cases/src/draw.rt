// Books out of keys: sound, near a limit, and spoiled.
use drawn::{Key, Page, many_rules};

// ---- books

#[derive(Clone, Copy, PartialEq, Eq)]
pub enum Kind {
    Mixed,
    Large,
    Digits,
    ManyPictures,
}

// Up to so many pictures, then or among them so many rules, of `least` symbols or fewer than `more` more. The first rules may be much alike.
#[derive(Clone, Copy)]
pub struct Plan {
    pub kind: Kind,
    pictures: u8,
    rules: u16,
    least: u8,
    more: u8,
    alike: usize,
}

impl Plan {
    // Every 32nd book is large: short rules, as few symbols make few rows, in which many rules are live and end; where the rules of the first words are
    // much alike, some rows differ in the later words alone. Of the others some are of digits, some near the limits of 16 pictures and 64 symbols.
    pub fn of(number: usize, key: Key) -> Plan {
        let plan = Plan {
            kind: Kind::Mixed,
            pictures: key.pick(1, 4) as u8,
            rules: 1 + key.pick(2, 6) as u16,
            least: 1,
            more: 5,
            alike: 0,
        };
        if number % 32 == 0 {
            return Plan {
                kind: Kind::Large,
                pictures: 2,
                rules: many_rules(number / 32, 257),
                more: 1 + key.pick(4, 5) as u8 / 2,
                alike: 64 * key.pick(5, 4),
                ..plan
            };
        }
        match key.pick(3, 16) {
            0 | 1 => Plan {
                kind: Kind::Digits,
                pictures: 2,
                ..plan
            },
            2 => Plan {
                kind: Kind::ManyPictures,
                pictures: 15 + key.pick(4, 3) as u8,
                rules: 1,
                ..plan
            },
            3 => Plan {
                pictures: 0,
                rules: 1,
                least: 63 + key.pick(4, 3) as u8,
                more: 1,
                ..plan
            },
            _ => plan,
        }
    }

    // Whether the next field is a picture, where there may be one.
    fn is_picture(&self, key: Key, i: usize) -> bool {
        self.kind != Kind::Mixed || key.is_first(i.wrapping_add(100), 2)
    }

    // The letters of picture p: decimal and hexadecimal digits, either of them first; one byte; or some of the letters, which other pictures may have too.
    fn set_of(&self, key: Key, p: u8) -> u64 {
        let p = usize::from(p);
        match self.kind {
            Kind::Digits if p == key.pick(6, 2) => 0x3ff,
            Kind::Digits => 0x1fbff,
            Kind::ManyPictures => 1 << (p % 64),
            _ => {
                let letters = 16 + key.pick(10 + p, 240) as u64;
                1024 * (letters / 16 % 16) + 2 * (letters % 2)
            }
        }
    }

    fn length_of(&self, key: Key, i: usize) -> u16 {
        u16::from(self.least) + key.pick(i.wrapping_add(1000), self.more.into()) as u16
    }
}

// The book of a plan.
pub fn book(key: Key, plan: &Plan) -> Page {
    let mut page = Page::empty();
    let mut p = 0u8;
    for i in 0..usize::from(plan.pictures) + usize::from(plan.rules) {
        if p < plan.pictures && plan.is_picture(key, i) {
            page.picture(b"0123456789;abcdefghijk", plan.set_of(key, p));
            p += 1;
        } else {
            let own = key.of_rule(i.saturating_sub(p.into()), plan.alike);
            page.rule(plan.length_of(key, i), |j| own.symbol(j, p));
        }
    }
    page
}

// ---- spoiled books

// A byte of those, by a key.
fn one_of(bytes: &[u8], key: Key, place: usize) -> u8 {
    drawn::at(bytes, key.pick(place, bytes.len()))
}

fn odd_byte(key: Key, place: usize) -> u8 {
    one_of(b"\x00\x01\x02\x03\x50\x51\x52\xffabc1;", key, place)
}

// A field more, of a short and odd body.
fn odd_field(page: &mut Page, key: Key) {
    let mut body = [0u8; 6];
    for i in 0..6 {
        body[i] = odd_byte(key, 40 + i);
    }
    page.field(one_of(b"\x50\x52\x51", key, 31), &body[..key.pick(30, 7)]);
}

// A rule more, in which some pairs are bytes and pictures and some are neither.
fn odd_rule(page: &mut Page, key: Key) {
    let mut body = [0u8; 12];
    for i in 0..12 {
        body[i] = if i % 2 == 0 {
            one_of(b"\x00\x00\x00\x01\x01\x02\xff", key, 40 + i)
        } else {
            key.pick(40 + i, 4) as u8
        };
    }
    page.field(0x52, &body[..2 * key.pick(30, 7)]);
}

// A book with a byte changed, cut short, with a byte, a rule or a field more.
pub fn spoil(page: &mut Page, key: Key) {
    let place = key.pick(20, page.size());
    let byte = odd_byte(key, 21);
    match key.pick(22, 5) {
        0 => page.set(place, byte),
        1 => page.truncate(place),
        2 => page.insert(place, byte),
        3 => odd_rule(page, key),
        _ => odd_field(page, key),
    }
}
