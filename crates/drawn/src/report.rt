// How often things were compared, and what differed.
ghost use Rattle.std.specs.Prelude.{◌≡◌, ◌+◌, ◌%◌, ◌^◌, false, true, slice_index, slice_set, IfOk};

use crate::refusals::Refused;
use numbered::Numbered;

// Written by hand: `print!` takes the runtime, which would go through every function from `main` to here.
fn write(bytes: &[u8]) {
    io::write_all(1, bytes);
}

// How often something was.
#[derive(Clone, Copy, Default)]
pub struct Count(u64);

impl Count {
    pub fn add(&mut self, more: usize)
        ensures { self.new.0 ≡ (self.old.0 + more) % 2 ^ 64 }
    {
        self.0 = self.0.wrapping_add(more as u64);
    }

    pub fn one(&mut self)
        ensures { self.new.0 ≡ (self.old.0 + 1) % 2 ^ 64 }
    {
        self.add(1);
    }

    // In a line, behind what it is of.
    pub fn say(&self, what: &[u8]) {
        say(what, self.0);
    }
}

fn say(what: &[u8], times: u64) {
    write(what);
    write(b" ");
    io::print_decimal(1, times);
    write(b"\n");
}

// How often each number was, of those below 32.
#[derive(Clone, Copy, Default)]
pub struct ByNumber([u64; 32]);

impl ByNumber {
    pub fn add(&mut self, number: usize, more: usize)
        ensures { self.new.0 ≡ slice_set self.old.0 number ((slice_index self.old.0 number + more) % 2 ^ 64) }
    {
        crate::add(&mut self.0, number, more as u64);
    }

    pub fn one(&mut self, number: usize)
        ensures { self.new.0 ≡ slice_set self.old.0 number ((slice_index self.old.0 number + 1) % 2 ^ 64) }
    {
        self.add(number, 1);
    }

    // The numbers that occurred, with how often, in a line.
    pub fn say(&self, what: &[u8]) {
        write(what);
        for (number, times) in self.0.iter().enumerate() {
            if *times != 0 {
                write(b", ");
                io::print_decimal(1, number as u64);
                write(b": ");
                io::print_decimal(1, *times);
            }
        }
        write(b"\n");
    }
}

// The differences so far, and the book at hand.
#[derive(Clone, Copy, Default)]
pub struct Differences {
    pub book: usize,
    found: Count,
}

impl Differences {
    // A difference, in a line: what of what differs, and the number of the book.
    pub fn expect(&mut self, is_so: bool, what: &[u8], of: &[u8])
        ensures so { is_so ≡ true → self.new ≡ self.old }
        ensures differs { is_so ≡ false → self.new.found.0 ≡ (self.old.found.0 + 1) % 2 ^ 64 }
        ensures book { self.new.book ≡ self.old.book }
    {
        if !is_so {
            self.found.one();
            write(b"difference: ");
            write(what);
            write(b" of ");
            write(of);
            say(b", book", self.book as u64);
        }
    }

    // The number and the value of an answer, where its value or its refusal is meant. Answers the number that is meant.
    pub fn compare<A: Numbered>(
        &mut self,
        answer: &A,
        meant: Result<usize, Refused>,
        of: &[u8],
    ) -> usize
        ensures number { IfOk meant (λ _. result ≡ 0) }
        ensures book { self.new.book ≡ self.old.book }
    {
        let (number, value) = match meant {
            Ok(value) => (0, value),
            Err(refused) => (refused.why as usize, refused.value),
        };
        self.expect(answer.number() == number, b"number", of);
        self.expect(answer.value() == value as u64, b"value", of);
        number
    }

    pub fn say(&self) {
        self.found.say(b"differences");
    }
}
