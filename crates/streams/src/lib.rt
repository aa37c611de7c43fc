// Standard input to its end, and the text that is put out: for the programs alone, which say on standard error what failed.
#![tactic(auto)]

ghost use Rattle.std.specs.Prelude.{◌<◌, ◌≡◌, length, take, IfOk, IfErr};
ghost use Rattle.std.specs.Io.KnownBytes.{Consumes, IsAtEnd};
ghost use Rattle.text.specs.Whole.{full};
ghost use Rattle.streams.specs.Sizes.{IsPrefixLen, bytes_read, size_within};

use std::io::Read;
use text::BufferFull;

// A read failed, behind so many bytes.
#[derive(Clone, Copy, Debug, PartialEq, Eq)]
pub struct ReadFailed {
    pub size: usize,
}

// How many bytes were read, until the input ends, or the buffer is full.
// Of a reader whose bytes are known: the buffer's front has those that were read, and fewer than it has room for are all of them,
// if no read failed.
pub fn read_input<R: Read>(reader: &mut R, buffer: &mut [u8]) -> Result<usize, ReadFailed>
    ensures prefix_len { IsPrefixLen (bytes_read result) buffer.new }
    ensures size_in_bounds { IfErr result (λ e. e.size < length buffer.new) }
    ensures bytes { Consumes (R.remaining reader.old) (R.remaining reader.new) (take (bytes_read result) buffer.new) }
    ensures whole { IfOk result (λ n. n < length buffer.new → IsAtEnd (R.remaining reader.new)) }
{
    let mut at: usize = 0;
    // Each turn goes on by what was read, so there is no range.
    while at < buffer.len() {
        let Ok(more) = reader.read(&mut buffer[at..]) else {
            return Err(ReadFailed { size: at });
        };
        if more == 0 {
            return Ok(at);
        }
        at += more;
    }
    Ok(at)
}

// How many bytes of a buffer are the text that was written into it.
// An error never comes: the programs' buffers have room for whatever is printed of a store.
pub fn text_size(written: Result<usize, BufferFull>, out: &[u8]) -> usize
    requires { written ≡ full → ⊥ }
    ensures prefix_len { IsPrefixLen result out.now }
    ensures value { result ≡ size_within written (length out.now) }
{
    match written {
        Ok(n) if n <= out.len() => n,
        _ => 0,
    }
}
