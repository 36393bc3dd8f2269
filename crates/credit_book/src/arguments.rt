// The program's arguments: `--read FILE` and `--write FILE`, each at most once, in either order.
ghost use Rattle.std.specs.Prelude.{◌≤◌, ◌+◌};

use std::env::{Env, FillError};
use std::fs::File;
use std::{fs, io};
use streams::arguments::{PATH_ROOM, path_of};

const WORD_ROOM: usize = 8;

// The most arguments that are known, with the program's own name.
const MOST: usize = 5;

// The places of the two names among the arguments, where they are named.
#[derive(Clone, Copy)]
pub struct Asked {
    pub read: Option<usize>,
    pub write: Option<usize>,
}

// A word that comes before a name.
#[derive(Clone, Copy)]
enum Word {
    Read,
    Write,
}

// The word that an argument is. One that is longer than the buffer is none.
fn word_at(rt: HostRuntime, i: usize) -> Option<Word> {
    let mut buffer = [0u8; WORD_ROOM];
    let n = rt.arg(i, &mut buffer).ok()?;
    match &buffer[..n] {
        b"--read" => Some(Word::Read),
        b"--write" => Some(Word::Write),
        _ => None,
    }
}

fn is_argument(rt: HostRuntime, i: usize) -> bool {
    let mut buffer = [0u8; WORD_ROOM];
    !matches!(rt.arg(i, &mut buffer), Err(FillError::NotPresent))
}

// How many arguments there are, with the program's own name; one more than are known stands for any more.
fn arg_count(rt: HostRuntime) -> usize
    ensures { result ≤ MOST + 1 }
{
    (0..=MOST).take_while(|i| is_argument(rt, *i)).count()
}

// The names that are asked for; nothing where the arguments are not these words, each with a name after it.
pub fn named_files(rt: HostRuntime) -> Option<Asked> {
    match arg_count(rt) {
        0 | 1 => Some(Asked {
            read: None,
            write: None,
        }),
        3 => match word_at(rt, 1)? {
            Word::Read => Some(Asked {
                read: Some(2),
                write: None,
            }),
            Word::Write => Some(Asked {
                read: None,
                write: Some(2),
            }),
        },
        5 => match (word_at(rt, 1)?, word_at(rt, 3)?) {
            (Word::Read, Word::Write) => Some(Asked {
                read: Some(2),
                write: Some(4),
            }),
            (Word::Write, Word::Read) => Some(Asked {
                read: Some(4),
                write: Some(2),
            }),
            _ => None,
        },
        _ => None,
    }
}

// The path that an argument names.
pub(crate) fn named_path<'a>(
    rt: HostRuntime,
    name: usize,
    buffer: &'a mut [u8; PATH_ROOM],
) -> io::Result<&'a str> {
    let answer = rt.arg(name, buffer);
    path_of(answer, buffer)
}

// Opens the file that an argument names, for reading.
pub fn open_named(rt: HostRuntime, name: usize) -> io::Result<File> {
    let mut buffer = [0u8; PATH_ROOM];
    fs::open(&rt, named_path(rt, name, &mut buffer)?)
}
