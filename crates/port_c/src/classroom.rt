// The exports of the plain engine's functions.
ghost use Rattle.std.specs.Prelude.{◌≡◌};
ghost use Rattle.port.specs.Port.{step_number};
ghost use Rattle.port.specs.Classroom.{plain_step_of, plain_step_bytes, plain_accepting_number, plain_replay_number};
ghost use Rattle.port.specs.Classroom.{fill_number, fill_memory};

// One step of the plain engine at a marking.
#[unsafe(no_mangle)]
pub extern "C" fn skelfora_plain_step<'a, 'm>(
    head: &'a [u8],
    conditions: &'a [u16],
    responses: &'a [u16],
    includes: &'a [u16],
    excludes: &'a [u16],
    marking: &'m mut [u8],
    activity: u8,
) -> u64
    ensures value { result ≡ step_number (plain_step_of head.now conditions.now responses.now
        includes.now excludes.now marking.old activity) }
    ensures marking_after { marking.new ≡ plain_step_bytes head.now conditions.now responses.now
        includes.now excludes.now marking.old activity }
{
    port::classroom::skelfora_plain_step(
        head, conditions, responses, includes, excludes, marking, activity,
    )
}

// Whether a marking is accepting.
#[unsafe(no_mangle)]
pub extern "C" fn skelfora_plain_accepting<'a>(
    head: &'a [u8],
    conditions: &'a [u16],
    responses: &'a [u16],
    includes: &'a [u16],
    excludes: &'a [u16],
    marking: &'a [u8],
) -> u64
    ensures { result ≡ plain_accepting_number head.now conditions.now responses.now
        includes.now excludes.now marking.now }
{
    port::classroom::skelfora_plain_accepting(
        head, conditions, responses, includes, excludes, marking,
    )
}

// Replays a trace from the opening marking.
#[unsafe(no_mangle)]
pub extern "C" fn skelfora_plain_replay<'a>(
    head: &'a [u8],
    conditions: &'a [u16],
    responses: &'a [u16],
    includes: &'a [u16],
    excludes: &'a [u16],
    trace: &'a [u8],
) -> u64
    ensures { result ≡ plain_replay_number head.now conditions.now responses.now
        includes.now excludes.now trace.now }
{
    port::classroom::skelfora_plain_replay(head, conditions, responses, includes, excludes, trace)
}

// A relation of a graph file, as pairs in lent memory.
#[unsafe(no_mangle)]
pub extern "C" fn skelfora_fill(file: &[u8], kind: u8, memory: &mut [u16]) -> u64
    ensures value { result ≡ fill_number file.now kind memory.old }
    ensures memory_after { memory.new ≡ fill_memory file.now kind memory.old }
{
    port::classroom::skelfora_fill(file, kind, memory)
}
