// The reader: what a file holds. A row is judged and put into its relation in one step, so that the rows are walked once.
ghost use Rattle.std.specs.Prelude.{◌≡◌, false, ◌≤◌, length, IfOk, IfErr, OnOk};
ghost use Rattle.sets.specs.Answers.{is_done, first_refusal};
ghost use Rattle.sets.specs.declared.answer.Answer.TheVariants.{Done};
ghost use Rattle.engine.specs.Relations.{relation_count};
ghost use Rattle.graphfile.specs.Layout.{end_of};
ghost use Rattle.graphfile.specs.Refusals.{judged_row, judged_relation, judged_file};
ghost use Rattle.graphfile.specs.Held.{filled, with_relations, bare_of, bare_tables, read_of};

use crate::file::File;
use crate::rows::Rows;
use crate::{layout, refusal};
use engine::graph::KINDS;
use engine::{Graph, Head, Relations, State};
use sets::rows::WORDS;
use sets::{Activity, Answer, Set, tables};

// What a read gives: the answer, and the graph; the empty graph where the file is refused.
#[derive(Clone, Copy)]
pub struct Reading {
    pub answer: Answer,
    pub graph: Graph,
}

// The rows of a relation, each put at its key into table r, up to the first that is refused. The form is a const parameter: where it is
// handed to one loop, the compiler asks for it at each row. It stays a function of its own: within its caller a row's words have no register
// left, and reading a file took up to two fifths longer.
#[inline(never)]
fn take_rows_in<const WIDE: bool>(rows: &Rows, r: u8, held: &mut Relations) -> Answer
    requires { WIDE ≡ rows.now.wide }
    ensures value { result ≡ first_refusal rows.now.count (judged_row rows.now.bytes.now rows.now.first) }
    ensures held_after { result ≡ Done → held.new ≡ filled rows.now.bytes.now held.old r rows.now.count rows.now.first }
{
    let rows = rows.in_form::<WIDE>();
    for j in 0..rows.count {
        let key = Activity(rows.key(j));
        let row = rows.set(j);
        let above = rows.rises(j);
        if !refusal::is_right(rows.events, key, row, above) {
            return refusal::refused_row(rows.events, key, row);
        }
        tables::put(held, r, key, row);
    }
    Answer::Done
}

// The same, in the form that they have.
fn take_rows(rows: &Rows, r: u8, held: &mut Relations) -> Answer
    ensures value { result ≡ first_refusal rows.now.count (judged_row rows.now.bytes.now rows.now.first) }
    ensures held_after { result ≡ Done → held.new ≡ filled rows.now.bytes.now held.old r rows.now.count rows.now.first }
{
    if rows.wide {
        take_rows_in::<true>(rows, r, held)
    } else {
        take_rows_in::<false>(rows, r, held)
    }
}

// The four relations in turn.
fn take_relations(file: &File, held: &mut Relations) -> Answer
    requires { end_of file.now.bytes.now ≤ length file.now.bytes.now }
    ensures value { result ≡ first_refusal relation_count (judged_relation file.now.bytes.now) }
    ensures held_after { result ≡ Done → held.new ≡ with_relations file.now.bytes.now held.old relation_count }
{
    for r in 0..KINDS {
        let answer = take_rows(&file.rows(r as usize), r, held);
        if !answer.is_done() {
            return answer;
        }
    }
    Answer::Done
}

// All of a file: opened and judged, and its rows put into the tables; of a refused file these are of no use.
fn take<'a>(bytes: &'a [u8], held: &mut Relations) -> Result<File<'a>, Answer>
    ensures ok { IfOk result (λ f. (f.bytes.now ≡ bytes.now) × (judged_file bytes.now ≡ Done)) }
    ensures held_after { OnOk result (held.new ≡ with_relations bytes.now held.old relation_count) }
    ensures err { IfErr result (λ a. (a ≡ judged_file bytes.now) × (is_done a ≡ false)) }
{
    let file = File::open(bytes)?;
    let front = refusal::judge_before_rows(&file);
    if !front.is_done() {
        return Err(front);
    }
    let rows = take_relations(&file, held);
    if !rows.is_done() {
        return Err(rows);
    }
    Ok(file)
}

// What a read without the set of enabled activities gives, beside the relations: for callers that hand no marking on. Of a refused file nothing.
#[derive(Clone, Copy)]
pub struct Bare {
    pub answer: Answer,
    pub events: Set,
    pub state: State,
}

// Reads a graph file and works no set out, which takes longer than the reading (02, 6/12). The rows go into lent tables, which a caller lends empty: given
// back by value they would be copied. A refused file's are cleared.
pub fn read_bare(bytes: &[u8], relations: &mut Relations) -> Bare
    ensures value { result ≡ bare_of bytes.now }
    ensures relations_after { relations.new ≡ bare_tables bytes.now relations.old }
{
    match take(bytes, relations) {
        Ok(file) => Bare {
            answer: Answer::Done,
            events: file.events,
            state: file.state,
        },
        Err(answer) => {
            *relations = [0; KINDS as usize * WORDS];
            Bare {
                answer,
                events: Set::EMPTY,
                state: State::EMPTY,
            }
        }
    }
}

// Reads a graph file, and works the set out. There is one way out, so that the tables are copied once.
pub fn read(bytes: &[u8]) -> Reading
    ensures { result ≡ read_of bytes.now }
{
    let mut relations: Relations = [0; KINDS as usize * WORDS];
    let mut head = Head::EMPTY;
    let bare = read_bare(bytes, &mut relations);
    let answer = bare.answer;
    if answer.is_done() {
        head = layout::head_in(bytes, &relations);
    }
    Reading {
        answer,
        graph: Graph { head, relations },
    }
}
