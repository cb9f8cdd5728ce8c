// Demand 2 on the code: files and graphs go round without a change.
ghost use Rattle.std.specs.Prelude.{◌≡◌, length};
ghost use Rattle.graphfile.specs.Writing.{file_after};
ghost use Rattle.promises.specs.Promised.{graph_back, file_back, file_copied};

use engine::Graph;
use graphfile::{Reading, Written, read, write};

// A graph, written and read again, is that graph.
pub fn graph_back(g: Graph, out: &mut [u8]) -> Reading
    ensures value { result ≡ graph_back g (length out.old) }
    ensures out_after { out.new ≡ file_after g out.old }
{
    let written = write(g, out);
    let answer = written.answer;
    if !answer.is_done() {
        return Reading {
            answer,
            graph: Graph::empty(),
        };
    }
    let length = written.length;
    read(&out[0..length])
}

// A file, read and written again, is that file, byte for byte.
pub fn file_back(file: &[u8], out: &mut [u8]) -> Written
    ensures value { result ≡ file_back file.now (length out.old) }
    ensures out_after { out.new ≡ file_copied file.now out.old }
{
    let reading = read(file);
    let answer = reading.answer;
    if !answer.is_done() {
        return Written { answer, length: 0 };
    }
    let graph = reading.graph;
    write(graph, out)
}
