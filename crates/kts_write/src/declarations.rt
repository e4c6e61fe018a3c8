ghost use Rattle.std.specs.Prelude.{◌≡◌, ◌<◌, ◌∷◌, [], length, map, flat_map, slice_index_or};
ghost use Rattle.std.specs.List.{AllByRecursion};
ghost use Rattle.kts_base.specs.Writes.{Wrote};
ghost use Rattle.kts_code.specs.CodeTexts.{header_words, name_words, type_words, family_words, decl_words, line_text};
ghost use Rattle.kts_spec.specs.Schemas.{family_at};
ghost use Rattle.kts_write.specs.Declarations.{IsIn};
ghost use Rattle.kts_write.specs.Spaced.{spaced};

use crate::numbers::put_indexes;
use itoa::Buffer;
use kts_base::{Name, Sink, SinkFault, put_pieces};
use kts_spec::{Decl, Family, Schema, ValueType};

/// A type, its words each after a space.
fn put_type<S: Sink>(kind: ValueType, out: &mut S) -> Result<(), SinkFault>
    ensures { Wrote result (S.log out.old) (S.log out.new) (spaced (type_words kind)) }
{
    match kind {
        ValueType::Int { lo, hi } => {
            let (mut low, mut high) = (Buffer::new(), Buffer::new());
            put_pieces(
                out,
                &[
                    b" int ",
                    low.format(lo).as_bytes(),
                    b" ",
                    high.format(hi).as_bytes(),
                ],
            )
        }
        ValueType::Member(index) => {
            let mut buffer = Buffer::new();
            put_pieces(out, &[b" mem ", buffer.format(index).as_bytes()])
        }
    }
}

/// A line of two words.
fn put_pair<S: Sink>(word: &[u8], other: &[u8], out: &mut S) -> Result<(), SinkFault>
    ensures { Wrote result (S.log out.old) (S.log out.new) (line_text (word.now ∷ other.now ∷ [])) }
{
    put_pieces(out, &[word, b" ", other, b"\n"])
}

/// The line of a given or a choice.
fn put_family<S: Sink>(word: &[u8], family: &Family, out: &mut S) -> Result<(), SinkFault>
    ensures { Wrote result (S.log out.old) (S.log out.new) (line_text (word.now ∷ family_words family.now)) }
{
    put_pieces(out, &[word, b" ", family.name().bytes()])?;
    put_type(family.kind(), out)?;
    put_indexes(family.args().as_slice(), out)?;
    out.put(b"\n")
}

/// The name of this number.
fn name_at(names: &[Name], number: u32) -> Name
    requires { number < length names.now }
    ensures { result ≡ slice_index_or names.now number [] }
{
    names[number as usize]
}

/// The given or the choice of this number.
fn family_at(families: &[Family], number: u32) -> &Family
    requires { number < length families.now }
    ensures { result.now ≡ family_at families.now number }
{
    &families[number as usize]
}

fn put_decl<S: Sink>(schema: &Schema, decl: &Decl, out: &mut S) -> Result<(), SinkFault>
    requires { IsIn schema.now decl.now }
    ensures { Wrote result (S.log out.old) (S.log out.new) (line_text (decl_words schema.now decl.now)) }
{
    match decl {
        Decl::Index(index) => {
            let name = name_at(schema.indexes().as_slice(), *index);
            put_pair(b"index", name.bytes(), out)
        }
        Decl::Given(given) => {
            let family = family_at(schema.givens().as_slice(), *given);
            put_family(b"given", family, out)
        }
        Decl::Choose(choice) => {
            let family = family_at(schema.choices().as_slice(), *choice);
            put_family(b"choose", family, out)
        }
        Decl::Manifest(choice) => {
            let mut buffer = Buffer::new();
            put_pair(b"manifest", buffer.format(*choice).as_bytes(), out)
        }
    }
}

fn put_decls<S: Sink>(schema: &Schema, decls: &[Decl], out: &mut S) -> Result<(), SinkFault>
    requires { AllByRecursion (IsIn schema.now) decls.now }
    ensures { Wrote result (S.log out.old) (S.log out.new) (flat_map line_text (map (decl_words schema.now) decls.now)) }
{
    for decl in decls {
        put_decl(schema, decl, out)?;
    }
    Ok(())
}

/// The first two lines, and those of the declarations.
pub fn put_schema<S: Sink>(schema: &Schema, out: &mut S) -> Result<(), SinkFault>
    ensures { Wrote result (S.log out.old) (S.log out.new)
        (flat_map line_text (header_words ∷ name_words schema.now.name ∷ map (decl_words schema.now) schema.now.decls)) }
{
    put_pieces(out, &[b"kts 1\nspec ", schema.name().bytes(), b"\n"])?;
    put_decls(schema, schema.decls().as_slice(), out)
}
