// The tally of a log: what steps 1 to 7 ask of it. It keeps what was seen, or what breaks a rule, over all activities of the width: all of
// it only grows, so the facts of two logs join by union.
ghost use Rattle.std.specs.Prelude.{◌≡◌, []};
ghost use Rattle.sets.specs.Tests.{◌and◌, ◌or◌};
ghost use Rattle.sets.specs.Members.{mem, those};
ghost use Rattle.sets.specs.Tables.{no_tables};
ghost use Rattle.rules.specs.Traces.{◌has◌};
ghost use Rattle.tally.specs.Passes.{through, walked, reaches, event_in, Knows};
ghost use Rattle.tally.specs.Tallies.{table_count, noted_for};

use crate::look_back::Blocks;
use crate::passes;
use sets::Set;
use sets::rows::WORDS;

// The numbers of the tables. They are no enum: the steps and sets::tables take the number of any table, so an enum would be cast at each use
// and matched at none.

// Row t: what stands before some t.
pub const BEFORE: u8 = 0;
// Row s: what stands after some s.
pub const LATER: u8 = 1;
// Row t: what some t does not have before it.
pub const UNPRECEDED: u8 = 2;
// Row s: what some s does not have after it.
pub const UNANSWERED: u8 = 3;
// Row t: what some t does not have directly before it.
pub const UNCHAINED: u8 = 4;
// Row s: what does not stand between some s and the s before it, or its trace's start.
pub const UNALTERNATED: u8 = 5;
// Row s: what directly follows some s.
pub const FOLLOWED: u8 = 6;

// Seven tables of rows, one after another.
pub type Tally = [u64; 7 * WORDS];

// The tally of no trace.
pub fn empty() -> Tally
    ensures { result ≡ no_tables table_count }
{
    [0; 7 * WORDS]
}

// The facts of one trace. The rows of its blocks are lent, so that not each trace clears them all. It gives the events so far with those of
// the trace that the form holds.
fn note_trace<const WIDE: bool>(
    trace: &[u8],
    events: Set,
    blocks: &mut Blocks,
    tally: &mut Tally,
) -> Set
    requires { Knows blocks.old.rows [] }
    ensures value { result ≡ those (λ x. mem events x or reaches WIDE x and trace.now has x) }
    ensures blocks_after { Knows blocks.new.rows [] }
    ensures tally_after { tally.new ≡ noted_for WIDE tally.old trace.now }
{
    let seen = passes::forward::<WIDE>(trace, blocks, tally);
    passes::backward::<WIDE>(trace, tally);
    events.union(seen)
}

// The facts of a log's first traces, in the form. It gives their events, as far as the form holds them.
fn note_traces<const WIDE: bool>(log: &[u8], traces: usize, tally: &mut Tally) -> Set
    ensures value { result ≡ those (event_in WIDE (walked log.now traces 0)) }
    ensures tally_after { tally.new ≡ through (noted_for WIDE) tally.old (walked log.now traces 0) }
{
    let mut blocks = Blocks::empty();
    let mut events = Set::EMPTY;
    for k in 0..traces {
        let trace = calllog::trace::trace_at(log, k);
        events = note_trace::<WIDE>(trace, events, &mut blocks, tally);
    }
    events
}

// The same in the form that is asked for.
pub fn note_traces_in(log: &[u8], traces: usize, wide: bool, tally: &mut Tally) -> Set
    ensures value { result ≡ those (event_in wide (walked log.now traces 0)) }
    ensures tally_after { tally.new ≡ through (noted_for wide) tally.old (walked log.now traces 0) }
{
    if wide {
        note_traces::<true>(log, traces, tally)
    } else {
        note_traces::<false>(log, traces, tally)
    }
}
