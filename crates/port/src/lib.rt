// The functions that Rust and C call (docs/PORT-OTHER.md), by the exports of the crate `port_c`. Every answer is one number: that of 01,
// and above it what goes with it.
#![tactic(auto)]

ghost use Rattle.std.specs.Prelude.{◌≡◌, ◌^◌, ◌<◌, ◌≤◌, length, MatchOption};
ghost use Rattle.port.specs.Port.{packed_of, verdict_of, blocked_of, step_number, stored_of, put_number, put_buffer, profile_of};
ghost use Rattle.port.specs.Port.{in_profile, in_profile_buffer, mine_number, mine_buffer, rewrite_number, rewrite_buffer, replay_number};
ghost use Rattle.port.specs.Port.{listing_number, summary_number, step_of, step_bytes, opening_answer, opening_bytes};
ghost use Rattle.sets.specs.Answers.{number_of};
ghost use Rattle.sets.specs.declared.answer.Answer.TheVariants.{Done};
ghost use Rattle.engine.specs.Relations.{graph_of};
ghost use Rattle.engine.specs.Judged.{judged};
ghost use Rattle.report.specs.Listing.{listing_after};
ghost use Rattle.report.specs.Summary.{summary_after};

pub mod call_desk;
pub mod classroom;
mod lent;
pub mod marked;
pub mod tallies;
pub mod way_out;

use engine::graph::KINDS;
use engine::{Head, Marking, Relations, Stepped};
use rules::Profile;
use sets::rows::WORDS;
use sets::{Activity, Answer, Place};

// What stands above the number: a length or place, in 24 bits; whether it is accepting; the blocker.
const PLACE: u64 = 1 << 8;

const PLACES: usize = 1 << 24;

const ACCEPTING: u64 = 1 << 32;

const BLOCKER: u64 = 1 << 40;

// What a file's relations are read into.
pub(crate) const EMPTY_RELATIONS: Relations = [0; KINDS as usize * WORDS];

// The number, and a length or place above it: 256 times. No length or place here reaches the 24 bits that it has.
pub(crate) fn packed(answer: Answer, n: usize) -> u64
    ensures value { result ≡ packed_of answer n }
    ensures upper_bound { result < 2 ^ 32 }
{
    answer.number() as u64 + PLACE * (n % PLACES) as u64
}

// The same, and 2^32 where accepting.
pub(crate) fn packed_verdict(answer: Answer, n: usize, accepting: bool) -> u64
    ensures value { result ≡ verdict_of answer n accepting }
    ensures upper_bound { result < 2 ^ 33 }
{
    let low = packed(answer, n);
    if accepting { low + ACCEPTING } else { low }
}

// What a function gives that can answer 10: the same, and the blocker.
pub(crate) fn packed_blocker(answer: Answer, n: usize, accepting: bool) -> u64
    ensures { result ≡ blocked_of answer n accepting }
{
    let low = packed_verdict(answer, n, accepting);
    low + BLOCKER * answer.blocker() as u64
}

// The marking after a step into the lent bytes, where it was done; its number and blocker. The form is a parameter like any other: it is
// known from a file only, and nothing is gone through here.
pub(crate) fn store(s: Stepped, marking: &mut [u8], wide: bool) -> u64
    ensures value { result ≡ step_number s }
    ensures marking_after { marking.new ≡ stored_of wide s marking.old }
{
    let answer = s.answer;
    if !answer.is_done() {
        return packed_blocker(answer, 0, false);
    }
    let after = s.marking;
    graphfile::marking::write_marking(after, marking, wide);
    packed_blocker(answer, 0, false)
}

// What mining or reading gave, written as a file where it was done. Such a graph is acceptable by a theorem, so it is not judged again.
fn put(answer: Answer, head: Head, relations: &Relations, out: &mut [u8]) -> u64
    requires { judged (graph_of head relations.now) ≡ Done }
    ensures value { result ≡ put_number answer (graph_of head relations.now) (length out.old) }
    ensures out_after { out.new ≡ put_buffer answer (graph_of head relations.now) out.old }
{
    if !answer.is_done() {
        return packed(answer, 0);
    }
    let w = graphfile::write_unjudged(head, relations, out);
    packed(w.answer, w.length)
}

// The profile that a number asks for: none but for 0 and 1. No TryFrom, since the numbers are C's and the type's own crate has none.
pub(crate) fn profile_of(n: u8) -> Option<Profile>
    ensures { MatchOption result (1 < n) (λ p. (n ≤ 1) × (p ≡ profile_of n)) }
{
    match n {
        0 => Some(Profile::Full),
        1 => Some(Profile::Light),
        _ => None,
    }
}

// Mines a log and writes its graph file.
fn mine(log: &[u8], profile: Profile, file: &mut [u8]) -> u64
    ensures value { result ≡ mine_number log.now (length file.old) profile }
    ensures file_after { file.new ≡ mine_buffer log.now profile file.old }
{
    let mut relations = EMPTY_RELATIONS;
    let m = miner::mine_into(log, profile, &mut relations);
    let answer = m.answer;
    put(answer, m.head, &relations, file)
}

// The same for a profile by its number: 0 full, 1 light, 12 for any other.
pub fn skelfora_mine(log: &[u8], profile: u8, file: &mut [u8]) -> u64
    ensures value { result ≡ in_profile profile (mine_number log.now (length file.old)) }
    ensures file_after { file.new ≡ in_profile_buffer profile (mine_buffer log.now) file.old }
{
    let Some(p) = profile_of(profile) else {
        return packed(Answer::WrongArgument, 0);
    };
    mine(log, p, file)
}

// The listing of a log; the number is the log's own, or 7.
fn list(log: &[u8], profile: Profile, out: &mut [u8]) -> u64
    ensures value { result ≡ listing_number log.now (length out.old) profile }
    ensures out_after { out.new ≡ listing_after log.now profile out.old }
{
    let listed = report::write_listing(log, profile, out);
    packed(listed.answer, listed.length)
}

// The same for a profile by its number.
pub fn skelfora_listing(log: &[u8], profile: u8, out: &mut [u8]) -> u64
    ensures value { result ≡ in_profile profile (listing_number log.now (length out.old)) }
    ensures out_after { out.new ≡ in_profile_buffer profile (listing_after log.now) out.old }
{
    let Some(p) = profile_of(profile) else {
        return packed(Answer::WrongArgument, 0);
    };
    list(log, p, out)
}

// The summary of a log, for a profile by its number; the number given is 12, the log's own, or 7.
pub fn skelfora_summary(log: &[u8], profile: u8, out: &mut [u8]) -> u64
    ensures value { result ≡ in_profile profile (λ p. summary_number log.now (length out.old)) }
    ensures out_after { out.new ≡ in_profile_buffer profile (summary_after log.now) out.old }
{
    let Some(p) = profile_of(profile) else {
        return packed(Answer::WrongArgument, 0);
    };
    report::write_summary(log, p, out).number() as u64
}

// Reads a graph file and writes it again.
pub fn skelfora_rewrite(file: &[u8], out: &mut [u8]) -> u64
    ensures value { result ≡ rewrite_number file.now (length out.old) }
    ensures out_after { out.new ≡ rewrite_buffer file.now out.old }
{
    let r = graphfile::read(file);
    let answer = r.answer;
    put(answer, r.graph.head, &r.graph.relations, out)
}

// Replays a trace on the graph of a file: the number, the place, 2^32 where it ends accepting, and the blocker. Reading has judged the
// graph, so only the trace's length is left to judge; no set of enabled activities is worked out, and nothing copies the rows.
pub fn skelfora_replay(file: &[u8], trace: &[u8]) -> u64
    ensures { result ≡ replay_number file.now trace.now }
{
    let mut relations = EMPTY_RELATIONS;
    let r = graphfile::read_bare(file, &mut relations);
    let answer = r.answer;
    if !answer.is_done() {
        return packed_blocker(answer, 0, false);
    }
    if Place::LIMIT < trace.len() {
        return packed_blocker(Answer::AboveLimit, 0, false);
    }
    let p = engine::replay::walk_in(
        r.events,
        &relations,
        r.state,
        trace,
        graphfile::is_wide(file),
    );
    packed_blocker(p.answer, p.place.0, p.accepting)
}

// A step on the graph of a file: the file's refusals, then 7 where the marking has too few bytes, then the step's. Reading has judged
// the graph.
fn stepped<'a>(file: &'a [u8], marking: &'a [u8], a: Activity) -> Stepped
    ensures { result ≡ step_of file.now marking.now a.0 }
{
    let mut relations = EMPTY_RELATIONS;
    let r = graphfile::read_bare(file, &mut relations);
    let answer = r.answer;
    if !answer.is_done() {
        return Stepped {
            answer,
            marking: Marking::EMPTY,
        };
    }
    if marking.len() < lent::marking_room(file) {
        return Stepped {
            answer: Answer::BufferTooSmall,
            marking: Marking::EMPTY,
        };
    }
    let m = lent::marking_beside(file, marking);
    engine::step::step_on(r.events, &relations, m, a)
}

// One step at a marking of 32 lent bytes, or 64 by the file's edition: executed, pending, included, enabled; they stay as they were where
// it is refused.
pub fn skelfora_step(file: &[u8], marking: &mut [u8], activity: u8) -> u64
    ensures value { result ≡ step_number (step_of file.now marking.old activity) }
    ensures marking_after { marking.new ≡ step_bytes file.now marking.old activity }
{
    let s = stepped(file, marking, Activity(activity));
    store(s, marking, graphfile::is_wide(file))
}

// The opening marking of a graph file, with the steps enabled there, into lent bytes, 32 or 64 by the file's edition: where a caller that
// steps begins.
pub fn skelfora_opening(file: &[u8], marking: &mut [u8]) -> u64
    ensures value { result ≡ number_of (opening_answer file.now (length marking.old)) }
    ensures marking_after { marking.new ≡ opening_bytes file.now marking.old }
{
    let r = graphfile::read(file);
    let answer = r.answer;
    if !answer.is_done() {
        return answer.number() as u64;
    }
    if marking.len() < lent::marking_room(file) {
        return Answer::BufferTooSmall.number() as u64;
    }
    let m = r.graph.head.opening;
    graphfile::marking::write_marking(m, marking, graphfile::is_wide(file));
    answer.number() as u64
}
