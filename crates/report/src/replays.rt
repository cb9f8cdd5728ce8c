// The replay of each trace, one a line.
ghost use Rattle.std.specs.Prelude.{length};
ghost use Rattle.engine.specs.Relations.{in_tables};
ghost use Rattle.engine.specs.Replay.{replay_from};
ghost use Rattle.tally.specs.Passes.{walked};
ghost use Rattle.report.specs.Listing.{trace_line, trace_lines};
ghost use Rattle.report.specs.Puts.{Room, Wrote, trace_text};

use crate::graph::ListedGraph;
use crate::text::{LINE_END, Page, SPACE};
use engine::replay;

const TRACE: [u8; 1] = *b"T";

// A trace's number and length, its replay's number, and accepting.
fn put_trace_line(page: &mut Page<'_>, k: usize, size: usize, number: usize, accepting: usize)
    requires { Room page.old (trace_text k size number accepting) }
    ensures { Wrote page.old (trace_text k size number accepting) page.new }
{
    page.named(&TRACE, k, SPACE);
    page.number(size, SPACE);
    page.number(number, SPACE);
    page.number(accepting, LINE_END);
}

// The line of a trace, replayed on a graph that has been judged.
fn put_trace(page: &mut Page<'_>, g: &ListedGraph<'_>, k: usize, trace: &[u8])
    requires { Room page.old (trace_line k (length trace.now) (replay_from g.now.head.events (in_tables g.now.relations.now) g.now.head.opening.state 0 trace.now)) }
    ensures { Wrote page.old (trace_line k (length trace.now) (replay_from g.now.head.events (in_tables g.now.relations.now) g.now.head.opening.state 0 trace.now)) page.new }
{
    let ended = replay::walk(g.head.events, g.relations, g.head.opening.state, trace);
    let number = ended.answer.number() as usize;
    let accepting = usize::from(ended.accepting);
    put_trace_line(page, k, trace.len(), number, accepting);
}

// The lines of a log's first traces.
pub(crate) fn put_traces(page: &mut Page<'_>, g: &ListedGraph<'_>, log: &[u8], traces: usize)
    requires { Room page.old (trace_lines (replay_from g.now.head.events (in_tables g.now.relations.now) g.now.head.opening.state 0) 0 (walked log.now traces 0)) }
    ensures { Wrote page.old (trace_lines (replay_from g.now.head.events (in_tables g.now.relations.now) g.now.head.opening.state 0) 0 (walked log.now traces 0)) page.new }
{
    for k in 0..traces {
        let trace = calllog::trace::trace_at(log, k);
        put_trace(page, g, k, trace);
    }
}
