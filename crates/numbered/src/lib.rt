// What an answer is in the paper's numbers: a number and a value, of a refusal and of the answer that may be one.
#![tactic(auto)]

ghost use Rattle.std.specs.Prelude.{◌≡◌, ℕ, Ok, Err};

// What has a number and a value by the paper's table: each refusal, and so each answer.
pub trait Numbered {
    // The paper's number, and its value.
    ghost number_is: { Self → ℕ };

    ghost value_is: { Self → ℕ };

    fn number(&self) -> usize
        ensures { result ≡ number_is self.now };

    fn value(&self) -> u64
        ensures { result ≡ value_is self.now };
}

// What is given where nothing is refused: its value, of several the first.
pub trait Worth {
    ghost worth_is: { Self → ℕ };

    fn worth(&self) -> u64
        ensures { result ≡ worth_is self.now };
}

impl Worth for () {
    ghost worth_is = { λ u. 0 };

    fn worth(&self) -> u64 {
        0
    }
}

impl Worth for usize {
    ghost worth_is = { λ n. n };

    fn worth(&self) -> u64 {
        *self as u64
    }
}

// An answer has the number 0 and the value of what it gives, or those of its refusal.
impl<T: Worth, E: Numbered> Numbered for Result<T, E> {
    ghost number_is = { elim [ Ok x ↦ 0 | Err e ↦ E.number_is e ] };

    ghost value_is = { elim [ Ok x ↦ T.worth_is x | Err e ↦ E.value_is e ] };

    fn number(&self) -> usize {
        match self {
            Ok(_) => 0,
            Err(why) => why.number(),
        }
    }

    fn value(&self) -> u64 {
        match self {
            Ok(x) => x.worth(),
            Err(why) => why.value(),
        }
    }
}
