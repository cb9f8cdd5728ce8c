// The refusals of a log, in the order of 01, "Numbers given back". Time is linear in the bytes.
ghost use Rattle.std.specs.Prelude.{◌≡◌, drop};
ghost use Rattle.calllog.specs.Judged.{all_below, judged_head, judged_entry, judged_bodies, judged_contents, judged_log};
ghost use Rattle.calllog.specs.Logs.{judged_of};

use crate::layout;
use crate::layout::Entries;
use octets::edition;
use sets::Answer;

// The answer, A and T; 0 and 0 where the log is refused.
#[derive(Clone, Copy)]
pub struct Judged {
    pub answer: Answer,
    pub activities: u8,
    pub traces: usize,
}

// Judges any bytes.
pub fn judge_log(bytes: &[u8]) -> Judged
    ensures { result ≡ judged_of bytes.now }
{
    let answer = judge(bytes);
    if answer.is_done() {
        let activities = layout::activities(bytes);
        let traces = layout::traces(bytes);
        return Judged {
            answer: Answer::Done,
            activities,
            traces: traces as usize,
        };
    }
    Judged {
        answer,
        activities: 0,
        traces: 0,
    }
}

// The answer alone.
fn judge(bytes: &[u8]) -> Answer
    ensures { result ≡ judged_log bytes.now }
{
    let head = judge_head(bytes);
    if !head.is_done() {
        return head;
    }
    judge_contents(Entries { bytes })
}

fn judge_head(bytes: &[u8]) -> Answer
    ensures { result ≡ judged_head bytes.now }
{
    if bytes.len() < layout::HEAD_SIZE {
        return Answer::TooShort;
    }
    if !edition::opens_file(&layout::LETTERS, bytes) {
        return Answer::WrongLetters;
    }
    if edition::is_beyond(edition::edition_in(bytes), layout::activities(bytes)) {
        return Answer::AboveLimit;
    }
    if layout::MOST_TRACES < layout::traces(bytes) {
        return Answer::AboveLimit;
    }
    if bytes.len() < layout::bodies_start(bytes) as usize {
        return Answer::TooShort;
    }
    Answer::Done
}

// One entry, by the sum of the earlier lengths.
fn judge_entry(earlier: u32, offset: u16, size: u16) -> Answer
    ensures { result ≡ judged_entry earlier offset size }
{
    if layout::LONGEST_TRACE < size {
        return Answer::AboveLimit;
    }
    if (layout::MOST_EVENTS as u64) < earlier as u64 + size as u64 {
        return Answer::AboveLimit;
    }
    if offset as u32 != earlier {
        return Answer::WrongOffset;
    }
    Answer::Done
}

// Entry by entry, then the bodies.
fn judge_contents(entries: Entries<'_>) -> Answer
    ensures { result ≡ judged_contents entries.entry.bytes.now }
{
    let bytes = entries.bytes;
    let mut events: u32 = 0;
    for k in 0..layout::traces(bytes) {
        let size = entries.length(k);
        let answer = judge_entry(events, entries.offset(k), size);
        if !answer.is_done() {
            return answer;
        }
        events += size as u32;
    }
    judge_bodies(bytes, events)
}

// The end of the bytes, then the bodies' bytes.
fn judge_bodies(bytes: &[u8], events: u32) -> Answer
    ensures { result ≡ judged_bodies bytes.now events }
{
    let start = layout::bodies_start(bytes) as usize;
    let end = start + events as usize;
    if bytes.len() < end {
        return Answer::TooShort;
    }
    if end < bytes.len() {
        return Answer::WrongOffset;
    }
    if !all_below(bytes, start, layout::activities(bytes)) {
        return Answer::Outside;
    }
    Answer::Done
}

// Whether every byte from a position on is below a. There is no way out of the loop before its end, so that the compiler can look at
// many bytes at once.
pub fn all_below(bytes: &[u8], from: usize, a: u8) -> bool
    ensures { result ≡ all_below a (drop from bytes.now) }
{
    let mut below = true;
    for i in from..bytes.len() {
        below = below & (bytes[i] < a);
    }
    below
}
