// The exports of the marks' functions, and of all replays of a log at once.
ghost use Rattle.std.specs.Prelude.{◌≡◌, length};
ghost use Rattle.marks.specs.Marks.{guesses_of};
ghost use Rattle.report.specs.Marks.{marked_after};
ghost use Rattle.port.specs.Marks.{marks_in, counts_number, text_number, replays_number, replays_buffer};

// The marks of a file's graph in one number.
#[unsafe(no_mangle)]
pub extern "C" fn skelfora_marks<'a>(file: &'a [u8], log: &'a [u8], labels: &'a [u8]) -> u64
    ensures { result ≡ counts_number (marks_in file.now log.now labels.now) }
{
    port::marked::skelfora_marks(file, log, labels)
}

// The text of the marks of a file's graph.
#[unsafe(no_mangle)]
pub extern "C" fn skelfora_marks_text<'a, 'w>(
    file: &'a [u8],
    log: &'a [u8],
    labels: &'a [u8],
    out: &'w mut [u8],
) -> u64
    ensures value { result ≡ text_number (marks_in file.now log.now labels.now) (length out.old) }
    ensures out_after { out.new ≡ marked_after (marks_in file.now log.now labels.now) out.old }
{
    port::marked::skelfora_marks_text(file, log, labels, out)
}

// The text of the marks of guesses.
#[unsafe(no_mangle)]
pub extern "C" fn skelfora_guesses_text<'a, 'w>(
    guesses: &'a [u8],
    labels: &'a [u8],
    out: &'w mut [u8],
) -> u64
    ensures value { result ≡ text_number (guesses_of guesses.now labels.now) (length out.old) }
    ensures out_after { out.new ≡ marked_after (guesses_of guesses.now labels.now) out.old }
{
    port::marked::skelfora_guesses_text(guesses, labels, out)
}

// Replays each trace of a log on the graph of a file: a byte for each.
#[unsafe(no_mangle)]
pub extern "C" fn skelfora_replays<'a, 'w>(file: &'a [u8], log: &'a [u8], out: &'w mut [u8]) -> u64
    ensures value { result ≡ replays_number file.now log.now (length out.old) }
    ensures out_after { out.new ≡ replays_buffer file.now log.now out.old }
{
    port::marked::skelfora_replays(file, log, out)
}
