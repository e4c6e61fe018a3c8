ghost use Rattle.std.specs.Prelude.{◌∷◌, decimal, map};
ghost use Rattle.std.specs.Fmt.{signed_decimal};
ghost use Rattle.kts_base.specs.Writes.{Wrote};
ghost use Rattle.kts_code.specs.CodeTexts.{place_word};
ghost use Rattle.kts_spec.specs.Texts.{space};
ghost use Rattle.kts_write.specs.Spaced.{spaced};

use itoa::Buffer;
use kts_base::{Sink, SinkFault, put_pieces};

fn put_value<S: Sink>(value: &i64, out: &mut S) -> Result<(), SinkFault>
    ensures { Wrote result (S.log out.old) (S.log out.new) (space ∷ signed_decimal value.now) }
{
    let mut buffer = Buffer::new();
    put_pieces(out, &[b" ", buffer.format(*value).as_bytes()])
}

/// Numbers, each after a space.
pub fn put_values<S: Sink>(values: &[i64], out: &mut S) -> Result<(), SinkFault>
    ensures { Wrote result (S.log out.old) (S.log out.new) (spaced (map signed_decimal values.now)) }
{
    for value in values {
        put_value(value, out)?;
    }
    Ok(())
}

fn put_index<S: Sink>(index: &u32, out: &mut S) -> Result<(), SinkFault>
    ensures { Wrote result (S.log out.old) (S.log out.new) (space ∷ decimal index.now) }
{
    let mut buffer = Buffer::new();
    put_pieces(out, &[b" ", buffer.format(*index).as_bytes()])
}

/// The numbers of indexes, each after a space.
pub fn put_indexes<S: Sink>(indexes: &[u32], out: &mut S) -> Result<(), SinkFault>
    ensures { Wrote result (S.log out.old) (S.log out.new) (spaced (map decimal indexes.now)) }
{
    for index in indexes {
        put_index(index, out)?;
    }
    Ok(())
}

fn put_place<S: Sink>(place: Option<u8>, out: &mut S) -> Result<(), SinkFault>
    ensures { Wrote result (S.log out.old) (S.log out.new) (space ∷ place_word place) }
{
    match place {
        None => out.put(b" *"),
        Some(number) => {
            let mut buffer = Buffer::new();
            put_pieces(out, &[b" ", buffer.format(number).as_bytes()])
        }
    }
}

/// The places of a pattern, each after a space.
pub fn put_places<S: Sink>(places: &[Option<u8>], out: &mut S) -> Result<(), SinkFault>
    ensures { Wrote result (S.log out.old) (S.log out.new) (spaced (map place_word places.now)) }
{
    for place in places {
        put_place(*place, out)?;
    }
    Ok(())
}
