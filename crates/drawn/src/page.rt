// Drawn bytes: the fields of rule books, texts and profiles.
ghost use Rattle.std.specs.Prelude.{◌≡◌, ◌+◌, ◌-◌, ◌*◌, ◌<◌, ◌≤◌, length, min, take, slice_set};

use crate::has;

// So many bytes, one after the other: a count beside their room, as nothing allocates. Those past the room are left out.
#[derive(Clone, Copy)]
pub struct Page {
    bytes: [u8; Page::ROOM],
    size: usize,
    ghost within: { size ≤ 2560 },
}

impl Page {
    const ROOM: usize = 2560;

    pub fn empty() -> Page
        ensures { result.size ≡ 0 }
    {
        Page {
            bytes: [0; Page::ROOM],
            size: 0,
        }
    }

    pub fn text(&self) -> &[u8]
        ensures { result.now ≡ take self.now.size self.now.bytes }
    {
        &self.bytes[..self.size]
    }

    pub fn size(&self) -> usize
        ensures { result ≡ self.now.size }
    {
        self.size
    }

    pub fn push(&mut self, byte: u8)
        ensures size { self.new.size ≡ min 2560 (self.old.size + 1) }
        ensures byte { self.new.bytes ≡ slice_set self.old.bytes self.old.size byte }
    {
        if self.size < Page::ROOM {
            self.bytes[self.size] = byte;
            self.size += 1;
        }
    }

    pub fn write(&mut self, bytes: &[u8])
        ensures { self.new.size ≡ min 2560 (self.old.size + length bytes.now) }
    {
        let more = bytes.len().min(Page::ROOM - self.size);
        let end = self.size + more;
        self.bytes[self.size..end].copy_from_slice(&bytes[..more]);
        self.size = end;
    }

    // Another byte at a place that there is.
    pub fn set(&mut self, place: usize, byte: u8)
        ensures size { self.new.size ≡ self.old.size }
        ensures byte { place < self.old.size → self.new.bytes ≡ slice_set self.old.bytes place byte }
    {
        if place < self.size {
            self.bytes[place] = byte;
        }
    }

    // A byte put in at a place, where there is room for one more.
    pub fn insert(&mut self, place: usize, byte: u8)
        ensures size { place ≤ self.old.size → self.new.size ≡ min 2560 (self.old.size + 1) }
        ensures past { self.old.size < place → self.new ≡ self.old }
    {
        if place <= self.size && self.size < Page::ROOM {
            self.bytes.copy_within(place..self.size, place + 1);
            self.bytes[place] = byte;
            self.size += 1;
        }
    }

    pub fn truncate(&mut self, size: usize)
        ensures size { self.new.size ≡ min size self.old.size }
        ensures bytes { self.new.bytes ≡ self.old.bytes }
    {
        self.size = size.min(self.size);
    }

    // What stands from a place on, once more behind it.
    pub fn repeat(&mut self, from: usize)
        ensures { self.new.size ≡ min 2560 (self.old.size + (self.old.size - from)) }
    {
        let end = self.size;
        let more = end.saturating_sub(from).min(Page::ROOM - end);
        self.bytes
            .copy_within(end.min(from)..end.min(from) + more, end);
        self.size = end + more;
    }

    // ---- fields

    // The header of a field whose body follows; `close` puts in its size. Answers where the body begins.
    fn open(&mut self, tag: u8) -> usize
        ensures size { self.new.size ≡ min 2560 (self.old.size + 3) }
        ensures body { result ≡ self.new.size }
    {
        self.write(&[tag, 0, 0]);
        self.size
    }

    fn close(&mut self, body: usize)
        ensures { self.new.size ≡ self.old.size }
    {
        let size = (self.size.saturating_sub(body) % 65536) as u16;
        let [high, low] = size.to_be_bytes();
        self.set(body.saturating_sub(2), high);
        self.set(body.saturating_sub(1), low);
    }

    // A field with this body.
    pub fn field(&mut self, tag: u8, bytes: &[u8])
        ensures { self.new.size ≡ min 2560 (self.old.size + 3 + length bytes.now) }
    {
        let body = self.open(tag);
        self.write(bytes);
        self.close(body);
    }

    // The picture of a set of these letters.
    pub fn picture(&mut self, letters: &[u8], set: u64)
        ensures { self.old.size ≤ self.new.size }
    {
        let body = self.open(0x50);
        for (l, letter) in letters.iter().enumerate() {
            if has(set, l) {
                self.push(*letter);
            }
        }
        self.close(body);
    }

    // A rule of so many symbols, each a byte, or a picture with 256 more.
    pub fn rule<F: Fn(u16) -> u16 + Drop>(&mut self, size: u16, symbol: F)
        requires { F.IsAlwaysCallable symbol }
        ensures { self.new.size ≡ min 2560 (self.old.size + 3 + 2 * size) }
    {
        let body = self.open(0x52);
        for j in 0..size {
            self.write(&symbol(j).to_be_bytes());
        }
        self.close(body);
    }
}
