// The four counts of the paper's confusion table, and the measures made of them.
ghost use Rattle.std.specs.Prelude.{◌≡◌};
ghost use Rattle.marks.specs.Counts.{Few, counted_of, precision_of, recall_of, accuracy_of};

// Traces by verdict and label. The verdict is positive where it is yes, and true where the label agrees.
#[derive(Clone, Copy)]
pub struct Counts {
    pub true_positives: u16,
    pub false_positives: u16,
    pub false_negatives: u16,
    pub true_negatives: u16,
}

// Two whole numbers, not reduced and not rounded: a part of a whole.
#[derive(Clone, Copy)]
pub struct Measure {
    pub part: u32,
    pub whole: u32,
}

impl Counts {
    // Before the first trace, and beside a refusal.
    pub const NONE: Counts = Counts {
        true_positives: 0,
        false_positives: 0,
        false_negatives: 0,
        true_negatives: 0,
    };

    // Of the traces with the verdict yes, those in order.
    pub fn precision(self) -> Measure
        ensures { result ≡ precision_of self }
    {
        let hits = self.true_positives as u32;
        let slips = self.false_positives as u32;
        Measure {
            part: hits,
            whole: hits + slips,
        }
    }

    // Of the traces in order, those with the verdict yes.
    pub fn recall(self) -> Measure
        ensures { result ≡ recall_of self }
    {
        let hits = self.true_positives as u32;
        let missed = self.false_negatives as u32;
        Measure {
            part: hits,
            whole: hits + missed,
        }
    }

    // Of all traces, those where verdict and label agree.
    pub fn accuracy(self) -> Measure
        ensures { result ≡ accuracy_of self }
    {
        let agreed = self.true_positives as u32 + self.true_negatives as u32;
        let differed = self.false_positives as u32 + self.false_negatives as u32;
        Measure {
            part: agreed,
            whole: agreed + differed,
        }
    }

    // The counts with one trace more, by its verdict and its label.
    #[tactic(auto, using(crate::proofs::Counting::kinds))]
    pub(crate) fn with(self, verdict: bool, label: bool) -> Counts
        requires { Few self }
        ensures { result ≡ counted_of self verdict label }
    {
        let mut more = self;
        match (verdict, label) {
            (true, true) => more.true_positives += 1,
            (true, false) => more.false_positives += 1,
            (false, true) => more.false_negatives += 1,
            (false, false) => more.true_negatives += 1,
        }
        more
    }
}
