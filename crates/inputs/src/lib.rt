// What the programs for people read: a book and a text, each whole; and the tables that they lend.
#![tactic(auto)]

ghost use Rattle.std.specs.Prelude.{length};
ghost use Rattle.inputs.specs.Inputs.{InputFits, BothFit};

use std::io::Read;
use std::rt::Files;
use std::{fs, io};

// The room for a book and for a text: one byte more than each may have, so that an input which fills it is too long.
pub const BOOK_ROOM: usize = 49152 + 1;

pub const TEXT_ROOM: usize = 32768 + 1;

// The rows that a program lends, and the goto entries and the words of a table of sets that these are.
pub const ROWS: usize = 120;

pub const ENTRIES: usize = 256 * ROWS;

pub const WORDS: usize = words::WORDS * ROWS;

// Both inputs, whole: so many bytes of each. Lengths and no slices: `InputFits` and `BothFit` are of these, and the caller lent the buffers.
#[derive(Clone, Copy)]
pub struct Both {
    pub book: usize,
    pub text: usize,
}

// Reads the book and the text; or one of them cannot be read or is too long.
pub fn read_both(
    rt: &(impl Files + io::Input),
    book: &mut [u8; BOOK_ROOM],
    text: &mut [u8; TEXT_ROOM],
) -> Option<Both>
    ensures { BothFit result (length book.new) (length text.new) }
{
    Some(Both {
        book: read_book(rt, book)?,
        text: read_text(rt, text)?,
    })
}

// Reads the file `book.bin` of the working folder, which has so many bytes.
fn read_book(rt: &impl Files, room: &mut [u8; BOOK_ROOM]) -> Option<usize>
    ensures { InputFits result (length room.new) }
{
    let mut file = fs::open(rt, "book.bin").ok()?;
    read_all(&mut file, room)
}

// The same of standard input.
fn read_text(rt: &impl io::Input, room: &mut [u8; TEXT_ROOM]) -> Option<usize>
    ensures { InputFits result (length room.new) }
{
    read_all(&mut rt.reader(), room)
}

// Reads to the end of the input, which has to come before the room is full. The library's `read_to_end` fills a `Vec`.
fn read_all(file: &mut impl Read, room: &mut [u8]) -> Option<usize>
    ensures { InputFits result (length room.new) }
{
    let mut done = 0;
    while done < room.len() {
        let more = file.read(&mut room[done..]).ok()?;
        if more == 0 {
            return Some(done);
        }
        done += more;
    }
    None
}
