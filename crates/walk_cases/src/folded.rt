// The second tally, by the paper's words: the frames of a profile's lines, and what each adds to what its line has added. Sums here stay small; one that did
// not would wrap.
use crate::search::{Reports, Search};
use drawn::{Line, Lost, lines_of};

// The sums, and for each the line that last added to it, by its offset.
#[derive(Drop)]
pub struct Sums {
    pub counts: [u64; 256],
    last: [Option<usize>; 256],
    // How many reports were left out: of all lines, or of the one that is lost alone.
    pub again: usize,
}

impl Sums {
    pub fn none() -> Sums {
        Sums {
            counts: [0; 256],
            last: [None; 256],
            again: 0,
        }
    }

    // Adds the count for each rule that a frame reports, unless its line has added it.
    fn add(&mut self, reports: &Reports, count: u64, line: usize) {
        for pair in reports.pairs().chunks_exact(2) {
            let k = (pair[1] % 256) as usize;
            if self.last[k] == Some(line) {
                self.again = self.again.wrapping_add(1);
            } else {
                self.last[k] = Some(line);
                self.counts[k] = self.counts[k].wrapping_add(count);
            }
        }
    }

    // The frames of the line at an offset.
    fn add_line<S: Search>(
        &mut self,
        how: &S,
        line: Line<'_>,
        from: usize,
        reports: &mut Reports,
    ) -> Result<(), Lost> {
        let mut start = from;
        for frame in line.stack.split(|byte| *byte == b';') {
            if let Err(lost) = how.search(frame, reports) {
                return Err(Lost {
                    at: start.wrapping_add(lost.at),
                });
            }
            self.add(reports, line.count, from);
            start = start.wrapping_add(frame.len()).wrapping_add(1);
        }
        Ok(())
    }

    // Of a profile whose lines keep the rules. The reports have room for every rule at each end of a frame, which is shorter than 16 bytes.
    pub fn add_lines<S: Search>(&mut self, how: &S, profile: &[u8]) -> Result<(), Lost> {
        let mut reports = Reports::none();
        let mut again = 0usize;
        let mut from = 0usize;
        for bytes in lines_of(profile).split(|byte| *byte == b'\n') {
            if let Some(line) = Line::of(bytes) {
                self.again = 0;
                self.add_line(how, line, from, &mut reports)?;
                again = again.wrapping_add(self.again);
            }
            from = from.wrapping_add(bytes.len()).wrapping_add(1);
        }
        self.again = again;
        Ok(())
    }
}
