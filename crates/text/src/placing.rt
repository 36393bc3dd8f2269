// A text put into a lent buffer.
ghost use Rattle.std.specs.Prelude.{length};
ghost use Rattle.text.specs.Placing.{Puts, room_for};

// Puts a text into out from at on, and gives the place after it. Where it does not fit there is none, and nothing is put.
#[tactic(auto, using(crate::proofs::StoreLaws::copied, crate::proofs::StoreLaws::put_whole))]
pub fn put_bytes(out: &mut [u8], at: usize, text: &[u8]) -> Option<usize>
    ensures { Puts (room_for (length text.now) at out.old) text.now at
        out.old result out.new }
{
    let end = at.checked_add(text.len())?;
    // Not by `get_mut(..)?`: behind it a proof has no name for the buffer.
    if out.len() < end {
        return None;
    }
    out[at..end].copy_from_slice(text);
    Some(end)
}
