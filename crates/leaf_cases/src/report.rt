// How often things were compared.
use drawn::{ByNumber, Count, Differences};

#[derive(Clone, Copy, Default)]
pub struct Run {
    // By the numbers of their answers: profiles added to one record over and over, to records about the limits, over tables as built, and over damaged
    // ones; the shares of the records about the limits, and of drawn ones.
    pub one_record: ByNumber,
    pub limits: ByNumber,
    pub added: ByNumber,
    pub damaged: ByNumber,
    pub limit_shares: ByNumber,
    pub shared: ByNumber,
    // Books by how many rules they have.
    pub built: ByNumber,
    // Leaves that are named, by the number 0, and unnamed, by 1: the line written has them so.
    pub leaves: ByNumber,
    // Thousandths given to the largest remainders.
    pub more: Count,
    pub differences: Differences,
}

impl Run {
    pub fn tell(&self) {
        self.one_record
            .say(b"profiles added to one record, by number");
        self.limits
            .say(b"profiles added to records about the limits, by number");
        self.limit_shares.say(b"shares of these records, by number");
        self.built.say(
            b"books built, of up to 64 rules (0), up to 128 (1), up to 192 (2) and more (3)",
        );
        self.added.say(b"profiles added, by number");
        self.damaged
            .say(b"profiles added over damaged tables, by number");
        self.leaves
            .say(b"leaves that are named (0) and unnamed (1)");
        self.shared.say(b"shares of drawn records, by number");
        self.more
            .say(b"thousandths given to the largest remainders");
        self.differences.say();
    }
}
