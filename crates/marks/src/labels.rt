// A byte for each trace, 1 in order and 0 not (02, 9/12): when such bytes are refused.
ghost use Rattle.std.specs.Prelude.{◌≡◌};
ghost use Rattle.marks.specs.Labels.{judged_labels};

use calllog::judge::all_below;
use sets::Answer;

// 18 where there are not as many as traces, then 19 for one above 1.
#[tactic(auto, using(crate::proofs::Asking::labelling))]
pub fn judge_labels(labels: &[u8], traces: usize) -> Answer
    ensures { result ≡ judged_labels traces labels.now }
{
    if labels.len() != traces {
        return Answer::LabelsNotAsMany;
    }
    if !all_below(labels, 0, 2) {
        return Answer::LabelAboveOne;
    }
    Answer::Done
}
