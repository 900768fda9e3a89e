// Books, texts and folded profiles out of keys.
use drawn::{Key, Page, at};

// ---- books

// A book of up to three pictures, which may share letters, and then so many rules. Up to 64, 128 or 192 rules may be much alike.
pub fn book(key: Key, rules: u16) -> Page {
    let pictures = key.pick(0, 4) as u8;
    let (alike, longest) = if 64 < rules {
        (64 * key.pick(1, 4), 1 + key.pick(2, 5) / 2)
    } else {
        (0, 5)
    };
    let mut page = Page::empty();
    for p in 0..usize::from(pictures) {
        page.picture(b"1;abc", 1 + key.pick(3 + p, 31) as u64);
    }
    for k in 0..usize::from(rules) {
        let own = key.of_rule(k, alike);
        let more = key.pick(1000 + usize::from(pictures) + k, longest);
        page.rule(1 + more as u16, |j| own.symbol(j, pictures));
    }
    page
}

// ---- texts

// A text of up to 24 letters.
pub fn text(key: Key) -> Page {
    let mut page = Page::empty();
    for i in 0..key.pick(24, 25) {
        page.push(key.letter(i));
    }
    page
}

// ---- profiles

// A line is sound or spoiled.
#[derive(Clone, Copy)]
enum Line {
    Sound,
    Empty,
    NoStack,
    NoSpace,
    OddCount,
}

impl Line {
    fn spoiled(key: Key) -> Line {
        match key.pick(1, 5) {
            0 => Line::Empty,
            1 => Line::NoStack,
            2 => Line::NoSpace,
            _ => Line::OddCount,
        }
    }
}

// Up to four lines, of which one may be spoiled and each may come twice; half of the profiles end without LF.
pub fn profile(key: Key) -> Page {
    let spoiled = key.pick(0, 10);
    let mut page = Page::empty();
    for i in 0..key.pick(1, 5) {
        let from = page.size();
        let own = key.at(2 + i);
        let kind = if i == spoiled {
            Line::spoiled(own)
        } else {
            Line::Sound
        };
        write_line(&mut page, own, kind);
        if own.is_first(0, 4) {
            page.repeat(from);
        }
    }
    page.truncate(page.size().saturating_sub(key.pick(7, 2)));
    page
}

fn write_line(page: &mut Page, key: Key, kind: Line) {
    let odd = count(6 + key.pick(4, 10));
    match kind {
        Line::Empty => {}
        Line::NoStack => {
            page.push(b' ');
            page.write(odd);
        }
        Line::NoSpace => {
            stack(page, key);
            page.write(odd);
        }
        Line::OddCount => {
            stack(page, key);
            page.push(b' ');
            page.write(odd);
        }
        Line::Sound => {
            stack(page, key);
            page.push(b' ');
            page.write(count(key.pick(3, 6)));
        }
    }
    page.push(b'\n');
}

// Some letters, parted into frames; a frame may be empty and may hold spaces.
fn stack(page: &mut Page, key: Key) {
    for i in 0..1 + key.pick(2, 14) {
        page.push(if key.is_first(20 + i, 4) {
            at(b";;; ", key.pick(40 + i, 4))
        } else {
            key.letter(60 + i)
        });
    }
}

// One of the sound counts, which are the first six, or of the others.
fn count(which: usize) -> &'static [u8] {
    match which {
        0 => b"0",
        1 | 4 => b"3",
        2 => b"10",
        3 => b"65537",
        5 => b"4294967295",
        6 => b"",
        7 => b"01",
        8 => b"4294967296",
        9 => b"9999999999",
        10 => b"12345678901",
        11 => b"1\r",
        12 => b"1 ",
        13 => b"00",
        14 => b"-1",
        _ => b"7",
    }
}
