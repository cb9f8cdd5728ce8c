// The exports of the tallies' functions: months put together.
ghost use Rattle.std.specs.Prelude.{◌≡◌, length};
ghost use Rattle.sets.specs.Answers.{number_of};
ghost use Rattle.months.specs.Months.{fill_answer, filled_of, join_answer, joined_of};
ghost use Rattle.port.specs.Port.{in_profile, in_profile_buffer};
ghost use Rattle.port.specs.Tallies.{relations_number, relations_buffer};

// Fills a tally with a log.
#[unsafe(no_mangle)]
pub extern "C" fn skelfora_tally(log: &[u8], tally: &mut [u8]) -> u64
    ensures value { result ≡ number_of (fill_answer log.now tally.old) }
    ensures tally_after { tally.new ≡ filled_of log.now tally.old }
{
    port::tallies::skelfora_tally(log, tally)
}

// Joins another tally to the first.
#[unsafe(no_mangle)]
pub extern "C" fn skelfora_tally_join(tally: &mut [u8], other: &[u8]) -> u64
    ensures value { result ≡ number_of (join_answer tally.old other.now) }
    ensures tally_after { tally.new ≡ joined_of tally.old other.now }
{
    port::tallies::skelfora_tally_join(tally, other)
}

// What a tally gives, for a profile by its number.
#[unsafe(no_mangle)]
pub extern "C" fn skelfora_tally_relations(tally: &[u8], profile: u8, out: &mut [u8]) -> u64
    ensures value { result ≡ in_profile profile (relations_number tally.now (length out.old)) }
    ensures out_after { out.new ≡ in_profile_buffer profile (relations_buffer tally.now) out.old }
{
    port::tallies::skelfora_tally_relations(tally, profile, out)
}
