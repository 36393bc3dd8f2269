// A failure told in one line.
ghost use Rattle.std.specs.Prelude.{◌≡◌, ◌≤◌, ℕ, List, length, take, OnOk};
ghost use Rattle.std.specs.Io.KnownBytes.{Appends};
ghost use Rattle.std.specs.Result.{result_ok};
ghost use Rattle.streams.specs.Messages.{message, words};

use std::io;
use std::io::{Cursor, Write};

// No text of std's for an error is longer.
const TEXT_ROOM: usize = 512;

// What std puts behind the system's words, before the error's number.
const NUMBERED: &[u8] = b" (os error ";

// Tells what failed and why, in the system's own words.
pub fn tell<W: Write>(to: &mut W, what: &str, why: &io::Error) -> io::Result<()>
    ensures { OnOk result ((text : List ℕ)
        × Appends (W.contents to.old) (W.contents to.new) (message what.now text)) }
{
    let mut room = Cursor::new([0u8; TEXT_ROOM]);
    let _ = write!(room, "{why}");
    let n = (room.position() as usize).min(TEXT_ROOM);
    put_message(to, what, &room.get_ref()[..n])
}

// What was done; nothing where it failed, which is told on standard error.
pub fn told<T>(rt: HostRuntime, what: &str, done: io::Result<T>) -> Option<T>
    ensures { result ≡ result_ok done }
{
    done.inspect_err(|why| {
        let _ = tell(&mut rt.stderr(), what, why);
    })
    .ok()
}

// One line of what failed, and of a text for it without the number that it may end in. The text is bytes, which `write!`
// does not take; so the whole line goes by `write_all`.
pub fn put_message<W: Write>(to: &mut W, what: &str, text: &[u8]) -> io::Result<()>
    ensures { OnOk result (Appends (W.contents to.old) (W.contents to.new) (message what.now text.now)) }
{
    to.write_all(what.as_bytes())?;
    to.write_all(b": ")?;
    to.write_all(&text[..words_end(text)])?;
    to.write_all(b"\n")
}

// Where the number begins that a text for an error ends in, or the text's end.
fn words_end(text: &[u8]) -> usize
    ensures in_text { result ≤ length text.now }
    ensures words { take result text.now ≡ words text.now }
{
    text.windows(NUMBERED.len())
        .position(|w| w == NUMBERED)
        .unwrap_or(text.len())
}
