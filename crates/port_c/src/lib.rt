// The functions of the library `port` for C and Rust (docs/PORT-OTHER.md, docs/skelfora.h): each export calls the function of its own name
// and states its clauses again, since a crate is built as a library or as a static library, and never as both. A slice passes as a pointer
// and then a length.
#![tactic(auto)]

ghost use Rattle.std.specs.Prelude.{◌≡◌, length};
ghost use Rattle.port.specs.Port.{step_number};
ghost use Rattle.port.specs.Port.{in_profile, in_profile_buffer, mine_number, mine_buffer, rewrite_number, rewrite_buffer, replay_number};
ghost use Rattle.port.specs.Port.{listing_number, summary_number, step_of, step_bytes, opening_answer, opening_bytes};
ghost use Rattle.sets.specs.Answers.{number_of};
ghost use Rattle.report.specs.Listing.{listing_after};
ghost use Rattle.report.specs.Summary.{summary_after};

mod call_desk;
mod classroom;
mod marked;
mod tallies;
mod way_out;

// Mines a log and writes its graph file, for a profile by its number.
#[unsafe(no_mangle)]
pub extern "C" fn skelfora_mine(log: &[u8], profile: u8, file: &mut [u8]) -> u64
    ensures value { result ≡ in_profile profile (mine_number log.now (length file.old)) }
    ensures file_after { file.new ≡ in_profile_buffer profile (mine_buffer log.now) file.old }
{
    port::skelfora_mine(log, profile, file)
}

// The listing of a log, for a profile by its number.
#[unsafe(no_mangle)]
pub extern "C" fn skelfora_listing(log: &[u8], profile: u8, out: &mut [u8]) -> u64
    ensures value { result ≡ in_profile profile (listing_number log.now (length out.old)) }
    ensures out_after { out.new ≡ in_profile_buffer profile (listing_after log.now) out.old }
{
    port::skelfora_listing(log, profile, out)
}

// The summary of a log, for a profile by its number.
#[unsafe(no_mangle)]
pub extern "C" fn skelfora_summary(log: &[u8], profile: u8, out: &mut [u8]) -> u64
    ensures value { result ≡ in_profile profile (λ p. summary_number log.now (length out.old)) }
    ensures out_after { out.new ≡ in_profile_buffer profile (summary_after log.now) out.old }
{
    port::skelfora_summary(log, profile, out)
}

// Reads a graph file and writes it again.
#[unsafe(no_mangle)]
pub extern "C" fn skelfora_rewrite(file: &[u8], out: &mut [u8]) -> u64
    ensures value { result ≡ rewrite_number file.now (length out.old) }
    ensures out_after { out.new ≡ rewrite_buffer file.now out.old }
{
    port::skelfora_rewrite(file, out)
}

// Replays a trace on the graph of a file.
#[unsafe(no_mangle)]
pub extern "C" fn skelfora_replay(file: &[u8], trace: &[u8]) -> u64
    ensures { result ≡ replay_number file.now trace.now }
{
    port::skelfora_replay(file, trace)
}

// One step at a marking, on the graph of a file.
#[unsafe(no_mangle)]
pub extern "C" fn skelfora_step(file: &[u8], marking: &mut [u8], activity: u8) -> u64
    ensures value { result ≡ step_number (step_of file.now marking.old activity) }
    ensures marking_after { marking.new ≡ step_bytes file.now marking.old activity }
{
    port::skelfora_step(file, marking, activity)
}

// The opening marking of a graph file, into lent bytes.
#[unsafe(no_mangle)]
pub extern "C" fn skelfora_opening(file: &[u8], marking: &mut [u8]) -> u64
    ensures value { result ≡ number_of (opening_answer file.now (length marking.old)) }
    ensures marking_after { marking.new ≡ opening_bytes file.now marking.old }
{
    port::skelfora_opening(file, marking)
}
