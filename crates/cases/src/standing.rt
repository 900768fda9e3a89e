// The second rows: the different standings of all texts, found by making each known least text one byte longer.
ghost use Rattle.std.specs.Prelude.{◌≤◌, length};

use crate::fitting::{Fits, Rules};
use drawn::{NO_ENTRY, at};

// For each j the rules whose first j + 1 symbols the text's last j + 1 bytes fit.
#[derive(Clone, Copy, PartialEq, Eq)]
pub struct Standing([Rules; 8]);

impl Standing {
    // That of the empty text.
    fn empty() -> Standing {
        Standing([Rules::none(); 8])
    }

    // The standing after a byte more: j + 1 bytes fit where the j before fit and the byte fits the next symbol.
    fn after(&self, fits: &Fits, byte: u8) -> Standing {
        let mut now = fits.rules_for(byte);
        let mut before = fits.all;
        for j in 0..8 {
            now[j] = now[j].and(&before);
            before = self.0[j];
        }
        Standing(now)
    }

    // The length of the longest opening that the text ends with.
    pub fn held(&self) -> usize
        ensures { result ≤ 8 }
    {
        let longest = self.0.iter().rposition(|rules| !rules.is_empty());
        longest.map_or(0, |j| j + 1)
    }

    // Without its pairs of the held length.
    fn shorter(&self) -> Standing {
        let mut now = *self;
        let held = self.held();
        if 0 < held {
            now.0[held - 1] = Rules::none();
        }
        now
    }

    // The rules that are held for a length.
    pub fn rules_at(&self, length: usize) -> Rules {
        if 0 < length && length <= 8 {
            self.0[length - 1]
        } else {
            Rules::none()
        }
    }

    // The rules that end: those held for their own length.
    pub fn ended(&self, fits: &Fits) -> Rules {
        let mut rules = Rules::none();
        for (held, own) in self.0.iter().zip(&fits.length[1..]) {
            rules = rules.or(&held.and(own));
        }
        rules
    }
}

// The rows that are known, counted, as nothing allocates, and for how many there is room; and whether goto has their entries, beside them: also where it does not, the other tables are
// compared with the rows.
#[derive(Clone, Copy)]
pub struct Rows {
    standings: [Standing; 64],
    count: usize,
    room: usize,
    pub is_goto: bool,
    ghost within: { count ≤ 64 },
}

impl Rows {
    // The rows of a book; nothing where there are more than there is room for.
    pub fn of(fits: &Fits, room: usize, goto: &[u16]) -> Option<Rows> {
        let mut rows = Rows {
            standings: [Standing::empty(); 64],
            count: 1,
            room,
            is_goto: true,
        };
        // Rows join while they are gone through: of them there may be `room` at most.
        for r in 0..room {
            if r < rows.count {
                rows.spread(fits, r, goto)?;
            }
        }
        (rows.count <= room).then_some(rows)
    }

    pub fn all(&self) -> &[Standing]
        ensures { length result.now ≤ 64 }
    {
        &self.standings[..self.count]
    }

    fn row_of(&self, standing: &Standing) -> Option<u16> {
        let r = self.all().iter().position(|s| s == standing)?;
        Some(r as u16)
    }

    // The row with this standing: one that there is, or a new one where there is room.
    fn row_for(&mut self, standing: &Standing) -> Option<u16> {
        let known = self.row_of(standing);
        if known.is_some() {
            return known;
        }
        let r = self.count;
        if self.room <= r || 64 <= r {
            return None;
        }
        self.standings[r] = *standing;
        self.count = r + 1;
        Some(r as u16)
    }

    // Row r's text and one byte more, for each byte. The entry of goto is the row reached where that holds one more than row r, or where r is row 0.
    fn spread(&mut self, fits: &Fits, r: usize, goto: &[u16]) -> Option<()> {
        let from = self.standings[r % 64];
        let mut meant = NO_ENTRY;
        for byte in 0..=255u8 {
            if fits.is_unlike(byte) {
                let now = from.after(fits, byte);
                let to = self.row_for(&now)?;
                let is_longer = now.held() == from.held() + 1;
                meant = if r == 0 || is_longer { to } else { NO_ENTRY };
            }
            if at(goto, 256 * (r % 64) + usize::from(byte)) != meant {
                self.is_goto = false;
            }
        }
        Some(())
    }

    // The row that a row with this standing falls to.
    pub fn fall_of(&self, standing: &Standing) -> Option<u16> {
        self.row_of(&standing.shorter())
    }
}
