// Months put together (02, 12/12): a log's tally in lent bytes, two tallies in one, and the relations that a tally gives.
ghost use Rattle.std.specs.Prelude.{◌≡◌, ◌++◌, ◌*◌, ◌≤◌, ◌<◌, length, take, drop};
ghost use Rattle.sets.specs.Answers.{number_of};
ghost use Rattle.engine.specs.Relations.{relation_count};
ghost use Rattle.months.specs.Layout.{tally_width};
ghost use Rattle.months.specs.Months.{fill_answer, filled_of, join_answer, joined_of};
ghost use Rattle.port.specs.Port.{in_profile, in_profile_buffer};
ghost use Rattle.port.specs.Tallies.{known_length, row_of_all, rows_bytes, known_bytes, relations_number, relations_buffer};

use crate::{packed, profile_of};
use engine::Relations;
use engine::graph::KINDS;
use months::{Known, WIDTH};
use octets::set;
use rules::Profile;
use sets::{Activity, Answer, Set, tables};

// The rows of all relations, and where they begin: after A and the events.
const ROWS: usize = KINDS as usize * WIDTH;

const ROWS_START: usize = 1 + set::NARROW;

// The bytes of what a tally gives.
const LENGTH: usize = ROWS_START + ROWS * set::NARROW;

// Fills a tally with a log: the number.
pub fn skelfora_tally(log: &[u8], tally: &mut [u8]) -> u64
    ensures value { result ≡ number_of (fill_answer log.now tally.old) }
    ensures tally_after { tally.new ≡ filled_of log.now tally.old }
{
    months::fill(log, tally).number() as u64
}

// Joins another tally to the first: the number.
pub fn skelfora_tally_join(tally: &mut [u8], other: &[u8]) -> u64
    ensures value { result ≡ number_of (join_answer tally.old other.now) }
    ensures tally_after { tally.new ≡ joined_of tally.old other.now }
{
    months::join(tally, other).number() as u64
}

// Row i of all: the relations one after another.
fn row_of_all(relations: &Relations, i: usize) -> Set
    requires { i < relation_count * tally_width }
    ensures { result ≡ row_of_all relations.now i }
{
    tables::row(relations, (i / WIDTH) as u8, Activity((i % WIDTH) as u8))
}

// All rows, after A and the events.
fn put_rows(relations: &Relations, out: &mut [u8])
    requires { known_length ≤ length out.old }
    ensures { out.new ≡ take 9 out.old ++ rows_bytes relations.now ++ drop known_length out.old }
{
    for i in 0..ROWS {
        octets::put_set(
            out,
            ROWS_START + set::NARROW * i,
            row_of_all(relations, i),
            false,
        );
    }
}

// A, the events and all rows.
fn put_known(known: Known, out: &mut [u8])
    requires { known_length ≤ length out.old }
    ensures { out.new ≡ known_bytes known ++ drop known_length out.old }
{
    out[0] = known.activities;
    octets::put_set(out, 1, known.events, false);
    put_rows(&known.relations, out);
}

fn relations_read(tally: &[u8], profile: Profile, out: &mut [u8]) -> u64
    ensures value { result ≡ relations_number tally.now (length out.old) profile }
    ensures out_after { out.new ≡ relations_buffer tally.now profile out.old }
{
    let known = months::relations(tally, profile);
    let answer = known.answer;
    if !answer.is_done() {
        return answer.number() as u64;
    }
    if out.len() < LENGTH {
        return Answer::BufferTooSmall.number() as u64;
    }
    put_known(known, out);
    answer.number() as u64
}

// A, the events and the relations after step 8 that a tally gives, for a profile by its number: 0 full, 1 light, 12 for any other.
pub fn skelfora_tally_relations(tally: &[u8], profile: u8, out: &mut [u8]) -> u64
    ensures value { result ≡ in_profile profile (relations_number tally.now (length out.old)) }
    ensures out_after { out.new ≡ in_profile_buffer profile (relations_buffer tally.now) out.old }
{
    let Some(p) = profile_of(profile) else {
        return packed(Answer::WrongArgument, 0);
    };
    relations_read(tally, p, out)
}
