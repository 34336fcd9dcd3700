//! Writes pieces of a text one after another, and counts the bytes that have gone out.
ghost use Rattle.std.specs.Prelude.{◌≤◌, ◌<◌, ◌+◌, ◌^◌, ◌++◌, length, decimal, IfOk};
ghost use Rattle.em_generated.specs.Putting.{Puts};

use em_outside::{Sink, WriteStop, write_all};
use itoa::Buffer;

/// Writes the bytes behind so many that had gone out, and gives how many have gone out then.
pub fn put<K: Sink>(sink: &mut K, gone: usize, bytes: &[u8]) -> Result<usize, WriteStop>
    requires { gone + length bytes.now < 2 ^ 64 }
    ensures { Puts gone (K.written sink.old) (K.written sink.new) (K.fault_count sink.old) (K.fault_count sink.new) result bytes.now }
{
    match write_all(sink, bytes) {
        Ok(()) => Ok(gone + bytes.len()),
        Err(stop) => Err(WriteStop {
            gone: gone + stop.gone,
        }),
    }
}

/// Writes a number in decimal digits between two texts, behind so many bytes that had gone out, and gives how many have
/// gone out then.
pub fn put_number<K: Sink>(
    sink: &mut K,
    gone: usize,
    front: &[u8],
    number: u32,
    back: &[u8],
) -> Result<usize, WriteStop>
    requires { gone + length front.now + length back.now + 40 < 2 ^ 64 }
    ensures puts { Puts gone (K.written sink.old) (K.written sink.new) (K.fault_count sink.old) (K.fault_count sink.new) result (front.now ++ decimal number ++ back.now) }
    ensures within { IfOk result (λ end. end ≤ gone + length front.now + length back.now + 40) }
{
    let mut buffer = Buffer::new();
    let fronted = put(sink, gone, front)?;
    let numbered = put(sink, fronted, buffer.format(number).as_bytes())?;
    put(sink, numbered, back)
}
