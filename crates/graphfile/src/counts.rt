// How many rows of each relation the file of a graph has: what its length and its entries are made of, so that the rows are counted once.
ghost use Rattle.std.specs.Prelude.{◌≡◌, ◌*◌, ◌≤◌};
ghost use Rattle.sets.specs.Members.{width};
ghost use Rattle.engine.specs.Relations.{relation_count};

use crate::writer::row_count;
use engine::Relations;
use engine::graph::{CONDITIONS, EXCLUDES, INCLUDES, RESPONSES};

#[derive(Clone, Copy)]
pub(crate) struct Counts {
    pub(crate) conditions: usize,
    pub(crate) responses: usize,
    pub(crate) includes: usize,
    pub(crate) excludes: usize,
    ghost few: { (conditions ≤ width) × (responses ≤ width) × (includes ≤ width) × (excludes ≤ width) },
}

impl Counts {
    ghost use Rattle.graphfile.specs.Writing.{AreCounts, total_of};

    pub(crate) fn of<const WIDE: bool>(relations: &Relations) -> Counts
        ensures { AreCounts WIDE relations.now result }
    {
        Counts {
            conditions: row_count::<WIDE>(relations, CONDITIONS),
            responses: row_count::<WIDE>(relations, RESPONSES),
            includes: row_count::<WIDE>(relations, INCLUDES),
            excludes: row_count::<WIDE>(relations, EXCLUDES),
        }
    }

    // How many rows the file has.
    pub(crate) fn total(self) -> usize
        ensures value { result ≡ total_of self }
        ensures upper_bound { result ≤ width * relation_count }
    {
        self.conditions + self.responses + self.includes + self.excludes
    }
}
