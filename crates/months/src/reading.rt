// The relations after step 8 that a tally gives (02, 12/12): by the miner's stages. What steps 6 and 7 would ask the traces, what stands between
// two activities, they ask the sets of the pairs.
ghost use Rattle.std.specs.Prelude.{◌≡◌, ltb};
ghost use Rattle.sets.specs.Tests.{◌and◌};
ghost use Rattle.sets.specs.Members.{width, mem, those, some_below, no_set};
ghost use Rattle.sets.specs.Rows.{rows_of, rows_for, turned};
ghost use Rattle.sets.specs.Tables.{no_tables};
ghost use Rattle.engine.specs.Relations.{relation_count};
ghost use Rattle.miner.specs.Stages.{excludes_six, four_tables};
ghost use Rattle.months.specs.Layout.{tally_width, row_set, pair_set, set_in};
ghost use Rattle.months.specs.Readings.{tables_in, between_in, unfollowing, includers, includes_in, redundant_by, excluded, excludes_from, relations_from};
ghost use Rattle.months.specs.Months.{known_of};

use crate::layout;
use engine::Relations;
use engine::graph::{CONDITIONS, EXCLUDES, INCLUDES, KINDS, RESPONSES};
use octets::set;
use rules::Profile;
use sets::rows::WORDS;
use sets::{Activity, Answer, Rows, Set, rows, tables};
use steps::relations;
use tally::{Tally, log};

// What a tally gives: A, the events and the relations after step 8; nothing of it where the tally is refused.
#[derive(Clone, Copy)]
pub struct Known {
    pub answer: Answer,
    pub activities: u8,
    pub events: Set,
    pub relations: Relations,
}

// ---- the tables

// The rows of table k; there is none past the tally's width.
fn rows_in(tally: &[u8], k: u8) -> Rows
    ensures { result ≡ rows_of (λ a x. ltb a tally_width and mem (set_in tally.now (row_set k a)) x) }
{
    let mut out = rows::empty();
    for i in 0..layout::LIMIT {
        rows::put(&mut out, Activity(i), layout::row(tally, k, Activity(i)));
    }
    out
}

// The seven tables of the mining tally.
fn tables_in(tally: &[u8]) -> Tally
    ensures { result ≡ tables_in tally.now }
{
    let mut out = log::empty();
    for k in 0..layout::TABLES {
        let rows = rows_in(tally, k);
        tables::put_rows(&mut out, k, &rows);
    }
    out
}

// ---- step 6

// What stands between a member and a later t.
fn let_in(tally: &[u8], members: Set, t: Activity) -> Set
    ensures { result ≡ those (λ x. some_below width (λ s. mem members s and mem (set_in tally.now (pair_set s t.0)) x)) }
{
    let mut out = Set::EMPTY;
    for s in members.members() {
        out = out.union(layout::between(tally, s, t));
    }
    out
}

// What is read of one tally: its events, its bytes, which have the sets of the pairs, and its tables.
#[derive(Clone, Copy)]
struct Reading<'a> {
    events: Set,
    tally: &'a [u8],
    tables: &'a Tally,
}

impl Reading<'_> {
    fn includers_row(&self, chains: &Rows, never: &Rows, t: Activity) -> Set
        ensures { result ≡ those (includers self.now.events chains.now never.now (between_in self.now.tally.now) t.0) }
    {
        let back = let_in(self.tally, rows::row(never, t), t);
        self.events.intersection(rows::row(chains, t).union(back))
    }

    // By target what includes it. Row t of `never` has what t never directly follows.
    // A loop of its own: `rows_at` of steps asks something of its caller, so it can't be public.
    fn includers(&self, chains: &Rows, never: &Rows) -> Rows
        ensures { result ≡ rows_for self.now.events (includers self.now.events chains.now never.now (between_in self.now.tally.now)) }
    {
        let mut out = rows::empty();
        for a in self.events.members() {
            let row = self.includers_row(chains, never, a);
            rows::put(&mut out, a, row);
        }
        out
    }

    // Step 6 made: by source.
    fn includes_full(&self, chains: &Rows) -> Rows
        ensures { result ≡ rows_of (turned (rows_for self.now.events (includers self.now.events chains.now
            (unfollowing self.now.events self.now.tables.now) (between_in self.now.tally.now)))) }
    {
        let tables = self.tables;
        let never = relations::absent(self.events, tables, log::FOLLOWED);
        let unfollowing = rows::turned(&never);
        let by_target = self.includers(chains, &unfollowing);
        rows::turned(&by_target)
    }

    // The includes after step 6, made or skipped.
    fn includes_six(&self, profile: Profile) -> Rows
        ensures { result ≡ includes_in profile self.now.events self.now.tables.now (between_in self.now.tally.now) }
    {
        let tables = self.tables;
        let chains = relations::unbroken(self.events, tables, log::UNCHAINED);
        match profile {
            Profile::Full => self.includes_full(&chains),
            Profile::Light => rows::turned(&chains),
        }
    }

    // The excludes after step 7.
    fn excludes_seven(&self, includes: &Rows, profile: Profile) -> Rows
        ensures { result ≡ excludes_from self.now.events self.now.tables.now includes.now
            (excludes_six profile self.now.events self.now.tables.now) (between_in self.now.tally.now) }
    {
        let tables = self.tables;
        let six = miner::excludes_six(self.events, tables, profile);
        let alternating = relations::absent(self.events, tables, log::UNALTERNATED);
        let asked = Exclusions {
            tally: self.tally,
            alternating: &alternating,
            includes,
            excludes: &six,
        };
        asked.excluded(self.events)
    }

    // The relations after step 8.
    fn after_eight(&self, profile: Profile) -> Relations
        ensures { result ≡ relations_from self.now.events self.now.tables.now (between_in self.now.tally.now) profile }
    {
        let mut out: Relations = [0; KINDS as usize * WORDS];
        let conditions = miner::conditions_eight(self.events, self.tables);
        tables::put_rows(&mut out, CONDITIONS, &conditions);
        let responses = miner::responses_eight(self.events, self.tables);
        tables::put_rows(&mut out, RESPONSES, &responses);
        let includes = self.includes_six(profile);
        tables::put_rows(&mut out, INCLUDES, &includes);
        let excludes = self.excludes_seven(&includes, profile);
        tables::put_rows(&mut out, EXCLUDES, &excludes);
        out
    }
}

// ---- step 7

// What step 7 asks: what stands between two activities, the includes and the excludes after step 6, and in row s of `alternating` what
// alternately precedes s.
#[derive(Clone, Copy)]
struct Exclusions<'a, 'b> {
    tally: &'a [u8],
    alternating: &'b Rows,
    includes: &'b Rows,
    excludes: &'b Rows,
}

impl Exclusions<'_, '_> {
    // What u excludes and neither it nor anything between a u and a later s includes.
    fn redundant_by(&self, u: Activity, s: Activity) -> Set
        ensures { result ≡ those (redundant_by self.now.includes.now self.now.excludes.now (between_in self.now.tally.now) u.0 s.0) }
    {
        let shut = rows::row(self.excludes, u).difference(rows::row(self.includes, u));
        let includes = self.includes;
        let back = relations::union_of(includes, 0, layout::between(self.tally, u, s));
        shut.difference(back)
    }

    // What some member makes redundant.
    fn redundant_row(&self, members: Set, s: Activity) -> Set
        ensures { result ≡ those (λ x. some_below width (λ u. mem members u and redundant_by self.now.includes.now self.now.excludes.now
            (between_in self.now.tally.now) u s.0 x)) }
    {
        let mut out = Set::EMPTY;
        for u in members.members() {
            out = out.union(self.redundant_by(u, s));
        }
        out
    }

    fn excluded_row(&self, s: Activity) -> Set
        ensures { result ≡ those (excluded self.now.alternating.now self.now.includes.now self.now.excludes.now
            (between_in self.now.tally.now) s.0) }
    {
        let gone = self.redundant_row(rows::row(self.alternating, s), s);
        rows::row(self.excludes, s).difference(gone)
    }

    // The excludes that are not redundant.
    fn excluded(&self, events: Set) -> Rows
        ensures { result ≡ rows_for events (excluded self.now.alternating.now self.now.includes.now self.now.excludes.now
            (between_in self.now.tally.now)) }
    {
        let mut out = rows::empty();
        for a in events.members() {
            let row = self.excluded_row(a);
            rows::put(&mut out, a, row);
        }
        out
    }
}

// ---- all of them

// Nothing beside the number.
fn refused(answer: Answer) -> Known
    ensures { result ≡ record { answer = answer; activities = 0; events = no_set; relations = no_tables relation_count } }
{
    Known {
        answer,
        activities: 0,
        events: Set::EMPTY,
        relations: [0; KINDS as usize * WORDS],
    }
}

// A, the events and the relations after step 8 in the profile.
pub fn relations(tally: &[u8], profile: Profile) -> Known
    ensures { result ≡ known_of tally.now profile }
{
    if tally.len() < layout::LENGTH {
        return refused(Answer::BufferTooSmall);
    }
    let activities = tally[0];
    if layout::LIMIT < activities {
        return refused(Answer::AboveLimit);
    }
    let events = octets::set_at(tally, set::NARROW * layout::EVENTS, false);
    let tables = tables_in(tally);
    let reading = Reading {
        events,
        tally,
        tables: &tables,
    };
    Known {
        answer: Answer::Done,
        activities,
        events,
        relations: reading.after_eight(profile),
    }
}
