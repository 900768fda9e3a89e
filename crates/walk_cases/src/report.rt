// How often things were compared.
use drawn::{ByNumber, Count, Differences};

#[derive(Clone, Copy, Default)]
pub struct Run {
    // Books built, and of these those of more than 64 rules.
    pub built: Count,
    pub large: Count,
    // By the numbers of their answers: walks and tallies over tables as built, of the long texts, over damaged tables, and of counts at the limit.
    pub walked: ByNumber,
    pub tallied: ByNumber,
    pub long: ByNumber,
    pub long_tallied: ByNumber,
    pub damaged: ByNumber,
    pub spoiled: ByNumber,
    pub counts: ByNumber,
    pub reports: Count,
    pub falls: Count,
    // Reports of a rule that a line's tally has counted.
    pub again: Count,
    pub differences: Differences,
}

impl Run {
    pub fn tell(&self) {
        self.built.say(b"books built");
        self.large.say(b"of these of more than 64 rules");
        self.walked.say(b"texts walked, by number");
        self.long.say(b"long texts walked, by number");
        self.damaged
            .say(b"texts walked over damaged tables, by number");
        self.tallied.say(b"profiles tallied, by number");
        self.long_tallied.say(b"long profiles tallied, by number");
        self.counts.say(b"counts at the limit, by number");
        self.spoiled
            .say(b"profiles tallied over damaged tables, by number");
        self.reports.say(b"reports");
        self.falls.say(b"fallbacks");
        self.again.say(b"reports that a line had counted before");
        self.differences.say();
    }
}
