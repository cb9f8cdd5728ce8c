// A graph as this engine has it: its head, and for each relation the list of its pairs, which the caller lends.
use engine::Head;

#[derive(Clone, Copy)]
pub struct Graph<'a> {
    pub head: Head,
    pub conditions: &'a [u16],
    pub responses: &'a [u16],
    pub includes: &'a [u16],
    pub excludes: &'a [u16],
}
