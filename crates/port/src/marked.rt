// Marks, and all replays of a log at once, on the graph of a file (02, 9/12). The log is judged before the file.
ghost use Rattle.std.specs.Prelude.{◌≡◌, ◌^◌, ◌<◌, length};
ghost use Rattle.marks.specs.Marks.{guesses_of};
ghost use Rattle.report.specs.Marks.{marked_after};
ghost use Rattle.port.specs.Marks.{marks_in, two_counts, counts_number, text_number, replays_number, replays_buffer};

use crate::packed;
use marks::{Counts, Marked};

// The marks of a file's graph: the refusals of the log, of the file, then those of the marks.
fn marked<'a>(file: &'a [u8], log: &'a [u8], labels: &'a [u8]) -> Marked
    ensures { result ≡ marks_in file.now log.now labels.now }
{
    let judged = calllog::judge::judge_log(log);
    let first = judged.answer;
    if !first.is_done() {
        return Marked {
            answer: first,
            counts: Counts::NONE,
        };
    }
    let r = graphfile::read(file);
    let answer = r.answer;
    if !answer.is_done() {
        return Marked {
            answer,
            counts: Counts::NONE,
        };
    }
    let head = r.graph.head;
    marks::mark(head, &r.graph.relations, log, labels)
}

// A count has 12 bits.
const COUNTS: u16 = 1 << 12;

// What stands above the number: the positives, and the negatives above them.
const POSITIVES: u64 = 1 << 8;

const NEGATIVES: u64 = 1 << 32;

// Two counts in 24 bits; none of a log's reaches the 12 bits that it has.
fn two_counts(low: u16, high: u16) -> u64
    ensures value { result ≡ two_counts low high }
    ensures upper_bound { result < 2 ^ 24 }
{
    (low % COUNTS) as u64 + COUNTS as u64 * (high % COUNTS) as u64
}

// The number, and above it the four counts, 12 bits each.
fn packed_counts(m: Marked) -> u64
    ensures { result ≡ counts_number m }
{
    let counts = m.counts;
    let positives = two_counts(counts.true_positives, counts.false_positives);
    let negatives = two_counts(counts.false_negatives, counts.true_negatives);
    m.answer.number() as u64 + POSITIVES * positives + NEGATIVES * negatives
}

// The marks of a file's graph in one number: true positives, false positives, false negatives, true negatives.
pub fn skelfora_marks<'a>(file: &'a [u8], log: &'a [u8], labels: &'a [u8]) -> u64
    ensures { result ≡ counts_number (marks_in file.now log.now labels.now) }
{
    packed_counts(marked(file, log, labels))
}

// Marks as text: their number, or 7, and 256 times the text's length.
fn put_text(m: Marked, out: &mut [u8]) -> u64
    ensures value { result ≡ text_number m (length out.old) }
    ensures out_after { out.new ≡ marked_after m out.old }
{
    let listed = report::write_marks(m, out);
    packed(listed.answer, listed.length)
}

// The text of the marks of a file's graph.
pub fn skelfora_marks_text<'a, 'w>(
    file: &'a [u8],
    log: &'a [u8],
    labels: &'a [u8],
    out: &'w mut [u8],
) -> u64
    ensures value { result ≡ text_number (marks_in file.now log.now labels.now) (length out.old) }
    ensures out_after { out.new ≡ marked_after (marks_in file.now log.now labels.now) out.old }
{
    put_text(marked(file, log, labels), out)
}

// The text of the marks of guesses.
pub fn skelfora_guesses_text<'a, 'w>(guesses: &'a [u8], labels: &'a [u8], out: &'w mut [u8]) -> u64
    ensures value { result ≡ text_number (guesses_of guesses.now labels.now) (length out.old) }
    ensures out_after { out.new ≡ marked_after (guesses_of guesses.now labels.now) out.old }
{
    let m = marks::mark_guesses(guesses, labels);
    put_text(m, out)
}

// Replays each trace of a log on the graph of a file, which is read once: a byte for each, 128 where the verdict is yes, else the replay's
// number. The number, and 256 times how many bytes were written.
pub fn skelfora_replays<'a, 'w>(file: &'a [u8], log: &'a [u8], out: &'w mut [u8]) -> u64
    ensures value { result ≡ replays_number file.now log.now (length out.old) }
    ensures out_after { out.new ≡ replays_buffer file.now log.now out.old }
{
    let judged = calllog::judge::judge_log(log);
    let first = judged.answer;
    if !first.is_done() {
        return packed(first, 0);
    }
    let r = graphfile::read(file);
    let answer = r.answer;
    if !answer.is_done() {
        return packed(answer, 0);
    }
    let head = r.graph.head;
    let done = marks::write_replays(head, &r.graph.relations, log, out);
    packed(done.answer, done.traces)
}
