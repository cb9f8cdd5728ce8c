// The whole listing of a log, into a lent buffer.
ghost use Rattle.std.specs.Prelude.{◌≡◌, ◌+◌, ◌≤◌, length};
ghost use Rattle.engine.specs.Relations.{graph_of};
ghost use Rattle.report.specs.Listing.{refused_line, listed_of, listing_after};
ghost use Rattle.report.specs.Puts.{Put, Room, Wrote, lines_text, graph_text};

use crate::graph::ListedGraph;
use crate::text::{LINE_END, Page};
use crate::{heading, lent, relations, replays};
use engine::graph::{CONDITIONS, KINDS};
use engine::{Head, Relations};
use rules::Profile;
use sets::rows::WORDS;
use sets::{Answer, rows, tables};

const REFUSED: [u8; 7] = *b"refused";

// The log's answer, and the length of its listing; 7 and 0 where the buffer is smaller than the longest listing.
#[derive(Clone, Copy)]
pub struct Listed {
    pub answer: Answer,
    pub length: usize,
}

// The one line of a refusal.
pub(crate) fn put_refused(out: &mut [u8], answer: Answer) -> usize
    requires { 0 + length (refused_line answer) ≤ length out.old }
    ensures { Put out.old 0 (refused_line answer) out.new result }
{
    let mut page = Page::new(out);
    page.named(&REFUSED, answer.number() as usize, LINE_END);
    page.at
}

// The lines of a graph and of a log's first traces.
fn put_lines<'a>(
    page: &mut Page<'_>,
    log: &'a [u8],
    traces: usize,
    head: Head,
    relations: &'a Relations,
)
    requires { Room page.old (lines_text head relations.now log.now traces) }
    ensures { Wrote page.old (lines_text head relations.now log.now traces) page.new }
{
    let conditions = tables::taken(relations, CONDITIONS);
    let by_source = rows::turned(&conditions);
    let g = ListedGraph {
        head,
        relations,
        by_source: &by_source,
    };
    heading::put_heading(page, &g, traces);
    relations::put_relations(page, &g);
    replays::put_traces(page, &g, log, traces);
}

// The lines of a graph and of all traces of a log that was mined, and so judged: its head has their number.
fn put_graph<'a>(out: &mut [u8], log: &'a [u8], head: Head, relations: &'a Relations) -> usize
    requires { 0 + length (graph_text (graph_of head relations.now) log.now) ≤ length out.old }
    ensures { Put out.old 0 (graph_text (graph_of head relations.now) log.now) out.new result }
{
    let traces = calllog::trace::trace_count(log);
    let mut page = Page::new(out);
    put_lines(&mut page, log, traces, head, relations);
    page.at
}

// Lists a log: reads it, mines it in the profile, replays it on its graph.
pub fn write_listing(log: &[u8], profile: Profile, out: &mut [u8]) -> Listed
    ensures value { result ≡ listed_of log.now profile (length out.old) }
    ensures out_after { out.new ≡ listing_after log.now profile out.old }
{
    if out.len() < lent::longest_in(log) {
        return Listed {
            answer: Answer::BufferTooSmall,
            length: 0,
        };
    }
    let mut relations: Relations = [0; KINDS as usize * WORDS];
    let mined = miner::mine_into(log, profile, &mut relations);
    let answer = mined.answer;
    if !answer.is_done() {
        let size = put_refused(out, answer);
        return Listed {
            answer,
            length: size,
        };
    }
    let size = put_graph(out, log, mined.head, &relations);
    Listed {
        answer,
        length: size,
    }
}
