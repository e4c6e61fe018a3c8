ghost use Rattle.std.specs.Prelude.{map};
ghost use Rattle.std.specs.Fmt.{signed_decimal};
ghost use Rattle.kts_base.specs.Bytes.{joined};
ghost use Rattle.kts_base.specs.Writes.{Wrote};

use crate::sink::{Sink, SinkFault};
use itoa::Buffer;

/// Puts the pieces in order, up to the first fault.
pub fn put_pieces<S: Sink>(out: &mut S, pieces: &[&[u8]]) -> Result<(), SinkFault>
    ensures { Wrote result (S.log out.old) (S.log out.new) (joined (map (λ piece. piece.now) pieces.now)) }
{
    for piece in pieces {
        out.put(piece)?;
    }
    Ok(())
}

/// Puts the decimal text of the number.
pub fn put_number<S: Sink>(out: &mut S, n: i128) -> Result<(), SinkFault>
    ensures { Wrote result (S.log out.old) (S.log out.new) (signed_decimal n) }
{
    let mut buffer = Buffer::new();
    out.put(buffer.format(n).as_bytes())
}
