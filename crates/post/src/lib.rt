// The post: all that comes in from a reader, read to its end or until the buffer is full; and what goes out to a writer, whole or not.
// It promises that no more bytes are counted than the buffer has; a read that fails is told apart from the end of the input. Of a reader or a writer whose bytes
// are known, as one over memory, it promises which bytes come in and that all go out; of the system's own no contract can say that.
// It stands on std alone.
#![tactic(auto)]

ghost use Rattle.std.specs.Prelude.{◌≡◌, OnOk};
ghost use Rattle.std.specs.Io.KnownBytes.{Appends};
ghost use Rattle.post.specs.Reading.{Filled, GaveAll};

use std::io;
use std::io::{Read, Write};

// Reads until the input ends or the buffer is full. So many bytes then stand at the front of the buffer.
pub fn read_all<R: Read>(reader: &mut R, buffer: &mut [u8]) -> io::Result<usize>
    ensures filled { Filled result buffer.new }
    ensures gave { GaveAll result (R.remaining reader.old) (R.remaining reader.new) buffer.new }
{
    let mut done = 0;
    // Kept: a while, since it jumps by as many bytes as a read gives; a for is no plainer, as no range has those places.
    while done < buffer.len() {
        let more = reader.read(&mut buffer[done..])?;
        if more == 0 {
            return Ok(done);
        }
        done += more;
    }
    Ok(done)
}

// Writes all of the bytes: a write that fails, or takes none, ends it with its error. Of no bytes no write is made.
pub fn write_all<W: Write>(writer: &mut W, bytes: &[u8]) -> io::Result<()>
    ensures { OnOk result (Appends (W.contents writer.old) (W.contents writer.new) bytes.now) }
{
    writer.write_all(bytes)?;
    writer.flush()
}

// What was done stays what it is; if it failed, the message is written besides, as far as it can be.
pub fn or_tell<T, E: Write>(done: io::Result<T>, errors: &mut E, message: &[u8]) -> io::Result<T>
    ensures same { result ≡ done }
    ensures quiet { OnOk result (errors.new ≡ errors.old) }
{
    if done.is_err() {
        let _ = write_all(errors, message);
    }
    done
}
