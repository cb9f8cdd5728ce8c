// A graph file that is opened: its head is there. What is read of it but once, its form, events and state; and what its entries say.
ghost use Rattle.std.specs.Prelude.{◌≡◌, ◌*◌, ◌≤◌, ◌<◌, length, true, false, IfOk, IfErr};
ghost use Rattle.std.specs.Coded.{Coded-set};
ghost use Rattle.sets.specs.Answers.{is_done};
ghost use Rattle.engine.specs.Relations.{relation_count};
ghost use Rattle.octets.specs.Editions.{opens_file, wide_in};
ghost use Rattle.graphfile.specs.Layout.{letters, activities_in, events_in, state_in, head_length, offset_in, count_in, earlier_rows, end_of};
ghost use Rattle.graphfile.specs.Refusals.{judged_file};

use crate::layout;
use crate::rows::Rows;
use engine::State;
use octets::edition::opens_file;
use octets::number::LENGTH as NUMBER;
use octets::set_at;
use sets::{Answer, Set};

#[derive(Clone, Copy)]
pub(crate) struct File<'a> {
    pub(crate) bytes: &'a [u8],
    pub(crate) wide: bool,
    pub(crate) events: Set,
    pub(crate) state: State,
    ghost opened: { opens_file letters bytes.now ≡ true },
    ghost form: { wide ≡ wide_in bytes.now },
    ghost head_there: { head_length (wide_in bytes.now) ≤ length bytes.now },
    ghost events_value: { events ≡ events_in bytes.now } by { Coded-set events-code events (events_in bytes.now) },
    ghost state_value: { state ≡ state_in bytes.now } by { Coded-set state-code state (state_in bytes.now) },
}

impl<'a> File<'a> {
    // The file in the bytes; what refuses them where its head is not there, or opens otherwise.
    pub(crate) fn open(bytes: &'a [u8]) -> Result<File<'a>, Answer>
        ensures ok { IfOk result (λ f. f.bytes.now ≡ bytes.now) }
        ensures err { IfErr result (λ a. (a ≡ judged_file bytes.now) × (is_done a ≡ false)) }
    {
        if bytes.len() < layout::head_length(false) {
            return Err(Answer::TooShort);
        }
        if !opens_file(&layout::LETTERS, bytes) {
            return Err(Answer::WrongLetters);
        }
        let wide = layout::is_wide(bytes);
        if bytes.len() < layout::head_length(wide) {
            return Err(Answer::TooShort);
        }
        Ok(File {
            bytes,
            wide,
            events: set_at(bytes, layout::EVENTS, wide),
            state: layout::state_in(bytes),
        })
    }

    // A.
    pub(crate) fn activities(&self) -> u8
        ensures { result ≡ activities_in self.now.bytes.now }
    {
        self.bytes[layout::ACTIVITIES]
    }

    // What entry r says.
    pub(crate) fn offset(&self, r: usize) -> usize
        requires { r < relation_count }
        ensures { result ≡ offset_in self.now.bytes.now r }
    {
        layout::number_in(
            self.bytes,
            layout::entries_place(self.wide) + layout::ENTRY * r,
        ) as usize
    }

    pub(crate) fn count(&self, r: usize) -> usize
        requires { r < relation_count }
        ensures value { result ≡ count_in self.now.bytes.now r }
        ensures upper_bound { result < 65536 }
    {
        layout::number_in(
            self.bytes,
            layout::entries_place(self.wide) + NUMBER + layout::ENTRY * r,
        ) as usize
    }

    // How many rows the relations before r have.
    pub(crate) fn earlier_rows(&self, r: usize) -> usize
        requires { r ≤ relation_count }
        ensures value { result ≡ earlier_rows self.now.bytes.now r }
        ensures upper_bound { result ≤ 65536 * r }
    {
        let mut rows = 0;
        for i in 0..r {
            rows += self.count(i);
        }
        rows
    }

    // The rows of relation r.
    pub(crate) fn rows(&self, r: usize) -> Rows<'a>
        requires { (r < relation_count) × (end_of self.now.bytes.now ≤ length self.now.bytes.now) }
        ensures bytes { result.bytes.now ≡ self.now.bytes.now }
        ensures first { result.first ≡ earlier_rows self.now.bytes.now r }
        ensures count { result.count ≡ count_in self.now.bytes.now r }
    {
        Rows {
            bytes: self.bytes,
            wide: self.wide,
            events: self.events,
            first: self.earlier_rows(r),
            count: self.count(r),
        }
    }
}
