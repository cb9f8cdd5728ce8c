// What the listing program's arguments ask for (02, 3/12 and 11/12), and the line of a refusal.
ghost use Rattle.std.specs.Prelude.{◌≡◌, length};
ghost use Rattle.report.specs.Choice.{says, choice_of, refused_length, refused_after};

use crate::writer;
use octets::opens_with;
use rules::Profile;
use sets::Answer;

// A listing in a profile, or a refusal.
#[derive(Clone, Copy)]
pub enum Choice {
    Listing(Profile),
    Refused(Answer),
}

const FULL: [u8; 4] = *b"full";

const LIGHT: [u8; 5] = *b"light";

// Where no argument names one.
const DEFAULT: Profile = Profile::Light;

// No refusal has a longer line: refused 12.
pub const LONGEST_REFUSED: usize = 11;

// Whether the bytes are the word's.
fn is_word<'a>(word: &'a [u8], bytes: &'a [u8]) -> bool
    ensures { result ≡ says word.now bytes.now }
{
    if bytes.len() != word.len() {
        return false;
    }
    opens_with(word, bytes)
}

// What one argument asks for.
fn named(argument: &[u8]) -> Choice
    ensures { result ≡ choice_of 1 argument.now }
{
    if is_word(&FULL, argument) {
        return Choice::Listing(Profile::Full);
    }
    if is_word(&LIGHT, argument) {
        return Choice::Listing(Profile::Light);
    }
    Choice::Refused(Answer::WrongArgument)
}

// What so many arguments ask for, the first of which is given.
pub fn choose(count: usize, argument: &[u8]) -> Choice
    ensures { result ≡ choice_of count argument.now }
{
    if count == 0 {
        return Choice::Listing(DEFAULT);
    }
    if 1 < count {
        return Choice::Refused(Answer::WrongArgument);
    }
    named(argument)
}

// The line of a refusal: gives its length, 0 where the buffer has fewer than `LONGEST_REFUSED` bytes.
pub fn write_refused(answer: Answer, out: &mut [u8]) -> usize
    ensures value { result ≡ refused_length answer (length out.old) }
    ensures out_after { out.new ≡ refused_after answer out.old }
{
    if out.len() < LONGEST_REFUSED {
        return 0;
    }
    writer::put_refused(out, answer)
}
