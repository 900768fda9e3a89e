// How often things were compared.
use drawn::{ByNumber, Count, Differences};

#[derive(Clone, Copy, Default)]
pub struct Run {
    // Reads and builds by their numbers.
    pub read: ByNumber,
    pub built: ByNumber,
    // Sound books with a byte in two pictures.
    pub sharing: Count,
    // Books of decimal and hexadecimal digits.
    pub digits: Count,
    // Books refused for a rule with several symbols at fault.
    pub several: Count,
    // Books of more than 64 rules: drawn, sound, and built within the rows lent.
    pub large: Count,
    pub large_sound: Count,
    pub large_built: Count,
    pub rows: Count,
    pub differences: Differences,
}

impl Run {
    pub fn tell(&self) {
        self.read.say(b"books read, by number");
        self.sharing.say(b"sound books with a byte in two pictures");
        self.digits
            .say(b"books drawn of decimal and hexadecimal digits");
        self.several
            .say(b"books refused for the first of several symbols");
        self.built.say(b"books built, by number");
        self.large.say(b"books drawn of more than 64 rules");
        self.large_sound.say(b"of these sound");
        self.large_built.say(b"of these built");
        self.rows.say(b"rows compared");
        self.differences.say();
    }
}
