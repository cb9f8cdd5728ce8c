// A graph as it is listed: with its conditions once more by source, since a graph has them by target.
use engine::{Head, Relations};
use sets::Rows;

#[derive(Clone, Copy)]
pub struct ListedGraph<'a> {
    pub head: Head,
    pub relations: &'a Relations,
    pub by_source: &'a Rows,
}
