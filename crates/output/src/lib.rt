// The answer that a program writes: its lines are put into a buffer, and all of them are written at once.
#![tactic(auto)]

ghost use Rattle.output.specs.Printed.{numeral, pair_line, refused_line, built_line};
ghost use Rattle.output.specs.PutsNext.{PutsNext};

// The descriptors of standard output, where the answer goes, and of standard error.
const STANDARD_OUTPUT: i32 = 1;

const STANDARD_ERROR: i32 = 2;

// A buffer that is lent for an answer, and the place where its next bytes go.
// No ghost field bounds the place: any may be given, also one past the end, and `Puts` covers every one.
#[derive(Drop)]
pub struct Answer<'a> {
    pub bytes: &'a mut [u8],
    pub end: usize,
}

impl Answer<'_> {
    // Puts bytes, as many as there is room for.
    pub fn put(&mut self, bytes: &[u8])
        ensures { PutsNext bytes.now self.old self.new }
    {
        let start = self.end.min(self.bytes.len());
        let more = bytes.len().min(self.bytes.len() - start);
        self.bytes[start..start + more].copy_from_slice(&bytes[..more]);
        self.end += more;
    }

    // The same for a number, in decimal: the digits are made by `io::decimal`, whose promise is proved to give `numeral`.
    pub fn put_number(&mut self, n: u64)
        ensures { PutsNext (numeral n) self.old self.new }
    {
        let mut digits = [0u8; 20];
        let k = io::decimal(n, &mut digits);
        self.put(&digits[..k]);
    }

    // The same for a line of two numbers, each behind a word.
    pub fn put_pair(&mut self, first: &[u8], a: u64, second: &[u8], b: u64)
        ensures { PutsNext (pair_line first.now a second.now b) self.old self.new }
    {
        self.put(first);
        self.put_number(a);
        self.put(second);
        self.put_number(b);
        self.put(b"\n");
    }

    // The same for the line of a refusal, by the paper's number and value.
    pub fn put_refusal(&mut self, number: usize, value: u64)
        ensures { PutsNext (refused_line number value) self.old self.new }
    {
        self.put_pair(b"refused ", number as u64, b" ", value);
    }

    // The same for the line of a build: the rows used, or a refusal. It goes by the number, as its promise `built_line` does.
    pub fn put_built(&mut self, number: usize, value: u64)
        ensures { PutsNext (built_line number value) self.old self.new }
    {
        if number != 0 {
            self.put_refusal(number, value);
            return;
        }
        self.put(b"rows ");
        self.put_number(value);
        self.put(b"\n");
    }
}

// Writes an answer, and stops at the first write that fails: then it says so on standard error.
pub fn write(answer: &[u8]) {
    if !io::write_all(STANDARD_OUTPUT, answer) {
        io::write_all(STANDARD_ERROR, b"the answer could not be written\n");
    }
}
