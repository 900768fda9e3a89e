// The lines of a walk's reports and of a tally's sums, put into an answer.
#![tactic(auto)]

ghost use Rattle.std.specs.Prelude.{◌+◌, ◌*◌, ◌≤◌, length};
ghost use Rattle.output.specs.PutsNext.{PutsNext};
ghost use Rattle.shown.specs.Shown.{report_lines, shown_lines, sum_line, sum_lines};

use output::Answer;

// Puts what an accepted walk answers: its reports, then the fallbacks with the held length.
pub fn put_walk(answer: &mut Answer, reports: &[u32], falls: u64, held: u8)
    ensures bounded { length (shown_lines reports.now falls held) ≤ 11 * length reports.now + 64 }
    ensures puts { PutsNext (shown_lines reports.now falls held) answer.old answer.new }
{
    put_reports(answer, reports);
    answer.put_pair(b"falls ", falls, b" held ", u64::from(held));
}

// Puts a line for each report: the end and the rule.
fn put_reports(answer: &mut Answer, reports: &[u32])
    ensures { PutsNext (report_lines reports.now) answer.old answer.new }
{
    for report in reports.chunks_exact(2) {
        answer.put_pair(b"", u64::from(report[0]), b" ", u64::from(report[1]));
    }
}

// Puts a line for each sum that is not 0.
pub fn put_sums(answer: &mut Answer, sums: &[u64])
    ensures bounded { length (sum_lines 0 sums.now) ≤ 42 * length sums.now }
    ensures puts { PutsNext (sum_lines 0 sums.now) answer.old answer.new }
{
    for (rule, sum) in sums.iter().enumerate() {
        put_sum(answer, rule as u64, *sum);
    }
}

// Puts the rule and its sum, where that is not 0.
fn put_sum(answer: &mut Answer, rule: u64, sum: u64)
    ensures { PutsNext (sum_line rule sum) answer.old answer.new }
{
    if sum != 0 {
        answer.put_pair(b"", rule, b" ", sum);
    }
}
