// The excludes of steps 1 to 6.
ghost use Rattle.std.specs.Prelude.{◌≡◌};
ghost use Rattle.sets.specs.Rows.{rows_for};
ghost use Rattle.sets.specs.Tables.{table_at, with_table};
ghost use Rattle.steps.specs.Rowwise.{excluders};
ghost use Rattle.tally.specs.Tallies.{before_table, later_table};
ghost use Rattle.miner.specs.Stages.{chains_of, five_of, excludes_six};

use engine::Relations;
use engine::graph::EXCLUDES;
use rules::Profile;
use sets::{Rows, Set, rows, tables};
use steps::relations;
use tally::{Tally, log};

// The excludes of steps 1 to 5, by target.
pub fn excluded_five(events: Set, tally: &Tally) -> Rows
    ensures { result ≡ rows_for events (excluders events (table_at tally.now before_table) (table_at tally.now later_table)
        (chains_of events tally.now)) }
{
    let chains = relations::unbroken(events, tally, log::UNCHAINED);
    relations::excluded_by(events, tally, log::BEFORE, log::LATER, &chains)
}

// The same by source.
fn excludes_five(events: Set, tally: &Tally) -> Rows
    ensures { result ≡ five_of events tally.now }
{
    let excluded = excluded_five(events, tally);
    rows::turned(&excluded)
}

// The excludes after step 6, which adds what never directly follows; the light profile leaves it out (02, 3/12).
pub fn excludes_six(events: Set, tally: &Tally, profile: Profile) -> Rows
    ensures { result ≡ excludes_six profile events tally.now }
{
    let five = excludes_five(events, tally);
    match profile {
        Profile::Full => {
            let never = relations::absent(events, tally, log::FOLLOWED);
            relations::united(events, &five, &never)
        }
        Profile::Light => five,
    }
}

pub(crate) fn put_six(events: Set, tally: &Tally, profile: Profile, out: &mut Relations)
    ensures { out.new ≡ with_table out.old 3 (excludes_six profile events tally.now) }
{
    let excludes = excludes_six(events, tally, profile);
    tables::put_rows(out, EXCLUDES, &excludes);
}
