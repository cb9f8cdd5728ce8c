// The marks of a graph on a log with labels, and those of a student's guesses.
ghost use Rattle.std.specs.Prelude.{◌≡◌, ◌≤◌, length};
ghost use Rattle.sets.specs.Sizes.{most_traces};
ghost use Rattle.engine.specs.Relations.{graph_of};
ghost use Rattle.marks.specs.Labels.{says_yes};
ghost use Rattle.marks.specs.Counts.{counts_of};
ghost use Rattle.marks.specs.Marks.{is_yes, judged_marks, marks_of, judged_guesses, guesses_of};
ghost use Rattle.marks.specs.Replays.{part_replay};

use crate::counts::Counts;
use crate::labels;
use crate::replays::Replaying;
use calllog::MOST_TRACES;
use engine::{Head, Relations};
use sets::Answer;

// The answer, and the four counts; all 0 where refused.
#[derive(Clone, Copy)]
pub struct Marked {
    pub answer: Answer,
    pub counts: Counts,
}

// The byte that says yes, or in order.
const IN_ORDER: u8 = 1;

// The counts of the traces that have labels, by the graph's verdicts.
#[tactic(auto, using(crate::proofs::Counting::counting))]
fn count_verdicts(replaying: &Replaying, labels: &[u8]) -> Counts
    requires { length labels.now ≤ most_traces }
    ensures { result ≡ counts_of (length labels.now)
        (λ k. is_yes (part_replay replaying.now.head replaying.now.relations.now replaying.now.log.now k)) (says_yes labels.now) }
{
    let mut counts = Counts::NONE;
    for (k, &label) in labels.iter().enumerate() {
        let yes = replaying.verdict(k);
        counts = counts.with(yes, label == IN_ORDER);
    }
    counts
}

// The same by guesses.
fn count_guesses<'a>(guesses: &'a [u8], labels: &'a [u8]) -> Counts
    requires labels_len_bound { length labels.now ≤ most_traces }
    requires guesses_len { length guesses.now ≡ length labels.now }
    ensures { result ≡ counts_of (length labels.now) (says_yes guesses.now) (says_yes labels.now) }
{
    let mut counts = Counts::NONE;
    for (&guess, &label) in guesses.iter().zip(labels) {
        counts = counts.with(guess == IN_ORDER, label == IN_ORDER);
    }
    counts
}

// The refusals of the log, of the graph, then of the labels.
#[tactic(auto, using(crate::proofs::Asking::judging))]
fn judge_marks(replaying: &Replaying, labels: &[u8]) -> Answer
    ensures { result ≡ judged_marks (graph_of replaying.now.head replaying.now.relations.now) replaying.now.log.now labels.now }
{
    let judged = calllog::judge::judge_log(replaying.log);
    let first = judged.answer;
    let answer = replaying.judge_after(first);
    if !answer.is_done() {
        return answer;
    }
    labels::judge_labels(labels, judged.traces)
}

// Marks a graph on a log by the labels of its traces.
#[tactic(auto, using(crate::proofs::Marking::marking))]
pub fn mark<'a>(head: Head, relations: &'a Relations, log: &'a [u8], labels: &'a [u8]) -> Marked
    ensures { result ≡ marks_of (graph_of head relations.now) log.now labels.now }
{
    let replaying = Replaying {
        head,
        relations,
        log,
    };
    let answer = judge_marks(&replaying, labels);
    if !answer.is_done() {
        return Marked {
            answer,
            counts: Counts::NONE,
        };
    }
    Marked {
        answer,
        counts: count_verdicts(&replaying, labels),
    }
}

// The refusals of labels and guesses.
#[tactic(auto, using(crate::proofs::Asking::guessing))]
fn judge_guesses<'a>(guesses: &'a [u8], labels: &'a [u8]) -> Answer
    ensures { result ≡ judged_guesses guesses.now labels.now }
{
    if (MOST_TRACES as usize) < labels.len() {
        return Answer::AboveLimit;
    }
    let answer = labels::judge_labels(labels, guesses.len());
    if !answer.is_done() {
        return answer;
    }
    labels::judge_labels(guesses, labels.len())
}

// Marks guesses by labels.
#[tactic(auto, using(crate::proofs::Marking::marking_guesses))]
pub fn mark_guesses<'a>(guesses: &'a [u8], labels: &'a [u8]) -> Marked
    ensures { result ≡ guesses_of guesses.now labels.now }
{
    let answer = judge_guesses(guesses, labels);
    if !answer.is_done() {
        return Marked {
            answer,
            counts: Counts::NONE,
        };
    }
    Marked {
        answer,
        counts: count_guesses(guesses, labels),
    }
}
