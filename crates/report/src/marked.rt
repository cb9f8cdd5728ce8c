// The text of marks (02, 9/12), into a lent buffer.
ghost use Rattle.std.specs.Prelude.{◌≡◌, ◌+◌, ◌≤◌, length};
ghost use Rattle.report.specs.Marks.{count_lines, measure_line, measure_lines, marks_text, marked_of, marked_after};
ghost use Rattle.report.specs.Puts.{Put, Room, Wrote};

use crate::text::{LINE_END, Page, SPACE};
use crate::writer;
use crate::writer::Listed;
use marks::{Counts, Marked, Measure};
use sets::Answer;

// No text of marks has more bytes: a buffer of this size is always enough.
pub const LONGEST_MARKS: usize = 98;

// The counts' letters, in the paper's table.
const TRUE_POSITIVES: [u8; 2] = *b"TP";

const FALSE_POSITIVES: [u8; 2] = *b"FP";

const FALSE_NEGATIVES: [u8; 2] = *b"FN";

const TRUE_NEGATIVES: [u8; 2] = *b"TN";

const PRECISION: [u8; 9] = *b"precision";

const RECALL: [u8; 6] = *b"recall";

const ACCURACY: [u8; 8] = *b"accuracy";

const NONE: [u8; 4] = *b"none";

// A line for each count of the table.
fn put_counts(page: &mut Page<'_>, c: Counts)
    requires { Room page.old (count_lines c) }
    ensures { Wrote page.old (count_lines c) page.new }
{
    page.named(&TRUE_POSITIVES, c.true_positives as usize, LINE_END);
    page.named(&FALSE_POSITIVES, c.false_positives as usize, LINE_END);
    page.named(&FALSE_NEGATIVES, c.false_negatives as usize, LINE_END);
    page.named(&TRUE_NEGATIVES, c.true_negatives as usize, LINE_END);
}

// The line of a measure: its two numbers, or `none` where the whole is 0.
fn put_measure(page: &mut Page<'_>, word: &[u8], m: Measure)
    requires { Room page.old (measure_line word.now m) }
    ensures { Wrote page.old (measure_line word.now m) page.new }
{
    if m.whole == 0 {
        page.word(word, SPACE);
        page.word(&NONE, LINE_END);
    } else {
        page.named(word, m.part as usize, SPACE);
        page.number(m.whole as usize, LINE_END);
    }
}

// A line for each measure.
fn put_measures(page: &mut Page<'_>, p: Measure, r: Measure, a: Measure)
    requires { Room page.old (measure_lines p r a) }
    ensures { Wrote page.old (measure_lines p r a) page.new }
{
    put_measure(page, &PRECISION, p);
    put_measure(page, &RECALL, r);
    put_measure(page, &ACCURACY, a);
}

// All lines.
fn put_marks(out: &mut [u8], c: Counts) -> usize
    requires { 0 + length (marks_text c) ≤ length out.old }
    ensures { Put out.old 0 (marks_text c) out.new result }
{
    let p = c.precision();
    let r = c.recall();
    let a = c.accuracy();
    let mut page = Page::new(out);
    put_counts(&mut page, c);
    put_measures(&mut page, p, r, a);
    page.at
}

// The text of marks: gives their answer and the text's length; 7 and 0 where the buffer is smaller than `LONGEST_MARKS`.
pub fn write_marks(m: Marked, out: &mut [u8]) -> Listed
    ensures value { result ≡ marked_of m (length out.old) }
    ensures out_after { out.new ≡ marked_after m out.old }
{
    if out.len() < LONGEST_MARKS {
        return Listed {
            answer: Answer::BufferTooSmall,
            length: 0,
        };
    }
    let answer = m.answer;
    if !answer.is_done() {
        let size = writer::put_refused(out, answer);
        return Listed {
            answer,
            length: size,
        };
    }
    let size = put_marks(out, m.counts);
    Listed {
        answer,
        length: size,
    }
}
