// What the programs for people have in common: they read a book and a text, build the book's tables, and write an answer.
#![tactic(auto)]

ghost use Rattle.std.specs.Prelude.{◌≡◌, ℕ, List, ◌+◌, ◌≤◌, length, take, drop};
ghost use Rattle.meaning.specs.Tables.{Five};
ghost use Rattle.lent.specs.Lent.{tables_of};
ghost use Rattle.output.specs.PutsNext.{PutsNext};
ghost use Rattle.program.specs.Program.{ProgramAnswer, PutsAnswer};

use lent::{Buffers, Machine};
use numbered::Numbered;
use output::Answer;
use std::io;
use std::rt::Files;

// The lines that a program puts behind that of its build, by the tables and their rows.
pub trait Lines {
    // These lines, and how long they may be.
    ghost lines_of: { Self → Five → ℕ → List ℕ };

    ghost room: { ℕ };

    fn put(&self, tables: &Machine, answer: &mut Answer)
        ensures fits { length (lines_of self.now (tables_of tables.now) tables.now.rows) ≤ room }
        ensures puts { PutsNext (lines_of self.now (tables_of tables.now) tables.now.rows) answer.old answer.new };
}

// Reads both inputs and hands them on; or writes that they are refused. Whoever gives a function to call says that it may be called.
pub fn run<F: FnOnce(&[u8], &[u8])>(rt: &(impl Files + io::Input), then: F)
    requires { F.IsAlwaysCallable then }
{
    let mut book = [0u8; inputs::BOOK_ROOM];
    let mut text = [0u8; inputs::TEXT_ROOM];
    if let Some(both) = inputs::read_both(rt, &mut book, &mut text) {
        then(&book[..both.book], &text[..both.text]);
    } else {
        output::write(b"refused input\n");
    }
}

// Builds the book's tables, and puts the line of that; where they are built, the lines of the program come behind it. Answers where they end.
// As many of their bytes as have room stand there, all where there is room for them; and the rest of the buffer is as it was. An end and no slice, as the buffer
// is the caller's and the promise is of all of it.
pub fn put_answer<L: Lines>(book: &[u8], lines: &L, bytes: &mut [u8]) -> usize
    ensures within { result ≤ length bytes.new }
    ensures long { length bytes.new ≡ length bytes.old }
    ensures rest { drop result bytes.new ≡ drop result bytes.old }
    ensures puts { PutsAnswer (L.lines_of lines.now) book.now bytes.old bytes.new result }
    ensures answers { 64 + L.room ≤ length bytes.old → ProgramAnswer (L.lines_of lines.now) book.now (take result bytes.new) }
{
    let mut goto = [0u16; inputs::ENTRIES];
    let mut fall = [0u16; inputs::ROWS];
    let mut held = [0u8; inputs::ROWS];
    let mut live = [0u64; inputs::WORDS];
    let mut out = [0u64; inputs::WORDS];
    let mut buffers = Buffers {
        goto: &mut goto,
        fall: &mut fall,
        held: &mut held,
        live: &mut live,
        out: &mut out,
    };
    let built = build::build(book, &mut buffers);
    let mut answer = Answer { bytes, end: 0 };
    answer.put_built(built.number(), built.value());
    let Ok(rows) = built else {
        return answer.end;
    };
    lines.put(&buffers.machine(rows), &mut answer);
    answer.end
}
