// The words of a case, and the files that they name. Buffers are arrays in this program, since the programs allocate nothing
// (docs/DECISIONS.md).
ghost use Rattle.io.specs.Counts.{IsPrefixLen};

use crate::text;
use std::env::{Env, FillError};
use std::io::Read;
use std::rt::Files;
use std::{fs, io, str};

// Whether there is an argument i. One that has bytes does not fit where there is no room, but it is there. The same stands in listing,
// since no library can hold it: what one lets others call leaves one outcome (docs/STATEMENTS.md), and a contract can't say what the
// arguments are.
pub fn is_given(rt: &impl Env, i: usize) -> bool {
    !matches!(rt.arg(i, &mut []), Err(FillError::NotPresent))
}

// The first letter of an argument.
pub fn kind(rt: &impl Env, i: usize) -> u8 {
    let mut word = [0u8; 64];
    let _ = rt.arg(i, &mut word);
    word[0]
}

fn say_word(rt: &(impl Env + Print), i: usize) -> io::Result<()> {
    let mut word = [0u8; 64];
    let n = rt.arg(i, &mut word).unwrap_or(0);
    rt.write_all(&word[..n])
}

// The words that begin at argument i; a `-` stands for no second file.
pub fn say_words(rt: &(impl Env + Print), i: u32) -> io::Result<()> {
    say_word(rt, i as usize)?;
    print!(rt; " ")?;
    say_word(rt, i as usize + 1)?;
    if kind(rt, i as usize + 2) != b'-' {
        print!(rt; " ")?;
        say_word(rt, i as usize + 2)?;
    }
    Ok(())
}

// Reads until the buffer is full, the file ends or a read fails, and gives how many bytes it put at the start of the buffer. A loop of its
// own, since that of calls and listing gives an error in place of the bytes before it; the place is kept by hand as there.
fn read_full(file: &mut impl Read, buf: &mut [u8]) -> usize
    ensures { IsPrefixLen result buf.new }
{
    let mut done = 0;
    while done < buf.len() {
        match file.read(&mut buf[done..]) {
            Ok(0) | Err(_) => break,
            Ok(n) => done += n,
        }
    }
    done
}

// Reads the file that argument i names. No case has an empty file: 0 bytes stand for one that can't be read.
pub fn load(rt: &(impl Env + Files), i: usize, buf: &mut [u8]) -> usize
    ensures { IsPrefixLen result buf.new }
{
    let mut name = [0u8; 64];
    let n = rt.arg(i, &mut name).unwrap_or(0);
    let Ok(path) = str::from_utf8(&name[..n]) else {
        return 0;
    };
    let Ok(mut file) = fs::open(rt, path) else {
        return 0;
    };
    read_full(&mut file, buf)
}
