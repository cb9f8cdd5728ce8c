// A relation of a graph on sets as a list of pairs, so that a mined graph can be read with this engine.
ghost use Rattle.std.specs.Prelude.{◌≡◌, ◌+◌, ◌<◌, ◌≤◌, length, set};
ghost use Rattle.sets.specs.Tests.{when◌then◌else◌};
ghost use Rattle.sets.specs.Members.{digit};
ghost use Rattle.plain.specs.Filling.{relation_at, questions, is_pair, numbered, pairs_of, put_down, filled_of, memory_after};

use engine::Relations;
use engine::graph::CONDITIONS;
use sets::activity::WIDTH;
use sets::{Activity, Answer, tables};

// Whether there was room, and how many pairs were put down.
#[derive(Clone, Copy)]
pub struct Filled {
    pub answer: Answer,
    pub pairs: usize,
}

// Source and target of the pairs to ask for, rising by source, then target, are counted through in one number: k / WIDTH and k % WIDTH.
const QUESTIONS: usize = WIDTH * WIDTH;

// Stores the pair of number k at place n, if it is wanted, and gives the place after it.
fn put_pair(memory: &mut [u16], n: usize, k: usize, wanted: bool) -> usize
    requires { (k < questions) × (n + digit wanted ≤ length memory.old) }
    ensures value { result ≡ n + digit wanted }
    ensures memory_after { memory.new ≡ when wanted then set memory.old n (numbered k) else memory.old }
{
    if !wanted {
        return n;
    }
    memory[n] = (k / WIDTH * 256 + k % WIDTH) as u16;
    n + 1
}

// One relation of a graph on sets, by its number.
#[derive(Clone, Copy)]
struct Relation<'a> {
    relations: &'a Relations,
    kind: u8,
}

impl Relation<'_> {
    // Whether the relation has the pair of number k. Conditions are kept by their target (01, "Graph").
    fn has_pair(&self, k: usize) -> bool
        requires { k < questions }
        ensures { result ≡ is_pair (relation_at self.now.relations.now self.now.kind) k }
    {
        let s = Activity((k / WIDTH) as u8);
        let t = Activity((k % WIDTH) as u8);
        let relations = self.relations;
        if self.kind == CONDITIONS {
            return tables::row(relations, self.kind, t).has(s);
        }
        tables::row(relations, self.kind, s).has(t)
    }

    // How many pairs the relation has.
    fn count(&self) -> usize
        ensures { result ≡ length (pairs_of (relation_at self.now.relations.now self.now.kind)) }
    {
        let mut n: usize = 0;
        for k in 0..QUESTIONS {
            n += usize::from(self.has_pair(k));
        }
        n
    }

    // Stores all pairs of the relation.
    fn put_pairs(&self, memory: &mut [u16])
        requires { length (pairs_of (relation_at self.now.relations.now self.now.kind)) ≤ length memory.old }
        ensures { memory.new ≡ put_down (pairs_of (relation_at self.now.relations.now self.now.kind)) memory.old }
    {
        let mut n: usize = 0;
        for k in 0..QUESTIONS {
            n = put_pair(memory, n, k, self.has_pair(k));
        }
    }
}

// One relation of a graph, by its number, put down in lent memory as pairs that rise by source, then target. The rest of the memory
// stays; all of it where it is too small.
pub fn fill(relations: &Relations, kind: u8, memory: &mut [u16]) -> Filled
    ensures value { result ≡ filled_of (relation_at relations.now kind) memory.old }
    ensures memory_after { memory.new ≡ memory_after (relation_at relations.now kind) memory.old }
{
    let relation = Relation { relations, kind };
    let pairs = relation.count();
    if memory.len() < pairs {
        return Filled {
            answer: Answer::BufferTooSmall,
            pairs: 0,
        };
    }
    relation.put_pairs(memory);
    Filled {
        answer: Answer::Done,
        pairs,
    }
}
