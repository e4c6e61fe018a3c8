ghost use Rattle.std.specs.Prelude.{◌≡◌, ◌==◌, ◌&&◌, ◌∷◌, [], length, map, codes};
ghost use Rattle.std.specs.Fmt.{signed_decimal};
ghost use Rattle.kts_base.specs.Writes.{Wrote};
ghost use Rattle.kts_syntax.specs.Shown.{ast_of};
ghost use Rattle.kts_syntax.specs.Texts.{spaced, listed, list_text, name_text, names_text, binder_text, head_text, expr_text, shape_text, form_text, lines_text, forms_text};

use crate::expr::Expr;
use crate::form::{Form, Shape};
use crate::forms::Forms;
use crate::head::Head;
use crate::operations::keyword;
use crate::word::Word;
use itoa::Buffer;
use kts_base::{Sink, SinkFault, put_number, put_pieces};

#[tactic(auto, unfolding(crate::specs::Texts::head_text))]
fn put_head<S: Sink>(head: &Head, out: &mut S) -> Result<(), SinkFault>
    ensures { Wrote result (S.log out.old) (S.log out.new) (head_text head.now) }
{
    match head {
        Head::Number(n) => put_number(out, i128::from(*n)),
        Head::Use(word) => out.put(word.name().bytes()),
        _ => out.put(keyword(head)),
    }
}

fn put_binder<S: Sink>(binder: &(Word, Word, usize), out: &mut S) -> Result<(), SinkFault>
    ensures { Wrote result (S.log out.old) (S.log out.new) (32 ∷ binder_text binder.now) }
{
    put_pieces(
        out,
        &[
            b" (",
            binder.0.name().bytes(),
            b" ",
            binder.1.name().bytes(),
            b")",
        ],
    )
}

fn put_binders<S: Sink>(binders: &[(Word, Word, usize)], out: &mut S) -> Result<(), SinkFault>
    ensures { Wrote result (S.log out.old) (S.log out.new) (spaced (map binder_text binders.now)) }
{
    for binder in binders {
        put_binder(binder, out)?;
    }
    Ok(())
}

#[cycle(printer)]
fn put_parts<S: Sink>(parts: &[Expr], out: &mut S) -> Result<(), SinkFault>
    ensures { Wrote result (S.log out.old) (S.log out.new) (spaced (map expr_text parts.now)) }
{
    for part in parts {
        out.put(b" ")?;
        put_expr(part, out)?;
    }
    Ok(())
}

/// A list of a head, binders and parts.
#[cycle(printer)]
fn put_list<S: Sink>(
    head: &Head,
    binders: &[(Word, Word, usize)],
    parts: &[Expr],
    out: &mut S,
) -> Result<(), SinkFault>
    ensures { Wrote result (S.log out.old) (S.log out.new) (listed (head_text head.now) (map binder_text binders.now) (map expr_text parts.now)) }
{
    out.put(b"(")?;
    put_head(head, out)?;
    put_binders(binders, out)?;
    put_parts(parts, out)?;
    out.put(b")")
}

fn is_alone(binders: &[(Word, Word, usize)], parts: &[Expr]) -> bool
    ensures { result ≡ (length binders.now == 0 && length parts.now == 0) }
{
    binders.is_empty() && parts.is_empty()
}

#[cycle(printer)]
pub fn put_expr<S: Sink>(expr: &Expr, out: &mut S) -> Result<(), SinkFault>
    ensures { Wrote result (S.log out.old) (S.log out.new) (expr_text expr.now) }
{
    let head = expr.head();
    let binders = expr.binders().as_slice();
    let parts = expr.parts().as_slice();
    if is_alone(binders, parts) {
        return put_head(&head, out);
    }
    put_list(&head, binders, parts, out)
}

fn put_names<S: Sink>(words: &[Word], out: &mut S) -> Result<(), SinkFault>
    ensures { Wrote result (S.log out.old) (S.log out.new) (spaced (map name_text words.now)) }
{
    for word in words {
        put_pieces(out, &[b" ", word.name().bytes()])?;
    }
    Ok(())
}

/// A list of at least one name.
fn put_some<S: Sink>(first: &Word, others: &[Word], out: &mut S) -> Result<(), SinkFault>
    ensures { Wrote result (S.log out.old) (S.log out.new) (list_text first.now.name (map name_text others.now)) }
{
    put_pieces(out, &[b"(", first.name().bytes()])?;
    put_names(others, out)?;
    out.put(b")")
}

/// A list of names.
fn put_args<S: Sink>(words: &[Word], out: &mut S) -> Result<(), SinkFault>
    ensures { Wrote result (S.log out.old) (S.log out.new) (names_text words.now) }
{
    if words.is_empty() {
        return out.put(b"()");
    }
    put_some(&words[0], &words[1..], out)
}

/// The type between two ends.
fn put_ends<S: Sink>(low: i64, high: i64, out: &mut S) -> Result<(), SinkFault>
    ensures { Wrote result (S.log out.old) (S.log out.new) (list_text (codes "int") (signed_decimal low ∷ signed_decimal high ∷ [])) }
{
    let mut first = Buffer::new();
    let mut second = Buffer::new();
    put_pieces(
        out,
        &[
            b"(int ",
            first.format(low).as_bytes(),
            b" ",
            second.format(high).as_bytes(),
            b")",
        ],
    )
}

#[tactic(auto, unfolding(crate::specs::Texts::shape_text))]
fn put_shape<S: Sink>(shape: &Shape, out: &mut S) -> Result<(), SinkFault>
    ensures { Wrote result (S.log out.old) (S.log out.new) (shape_text shape.now) }
{
    match shape {
        Shape::Int(low, high, _) => put_ends(*low, *high, out),
        Shape::Named(word) => out.put(word.name().bytes()),
    }
}

/// A list of a word and a name.
fn put_named<S: Sink>(word: &[u8], name: &Word, out: &mut S) -> Result<(), SinkFault>
    ensures { Wrote result (S.log out.old) (S.log out.new) (list_text word.now (name.now.name ∷ [])) }
{
    put_pieces(out, &[b"(", word, b" ", name.name().bytes(), b")"])
}

/// A list of a word, a name, arguments and a type.
fn put_family<S: Sink>(
    word: &[u8],
    name: &Word,
    args: &[Word],
    shape: &Shape,
    out: &mut S,
) -> Result<(), SinkFault>
    ensures { Wrote result (S.log out.old) (S.log out.new) (list_text word.now (name.now.name ∷ names_text args.now ∷ shape_text shape.now ∷ [])) }
{
    put_pieces(out, &[b"(", word, b" ", name.name().bytes(), b" "])?;
    put_args(args, out)?;
    out.put(b" ")?;
    put_shape(shape, out)?;
    out.put(b")")
}

/// A list of `formula`, a name and a formula.
fn put_formula<S: Sink>(name: &Word, expr: &Expr, out: &mut S) -> Result<(), SinkFault>
    ensures { Wrote result (S.log out.old) (S.log out.new) (list_text (codes "formula") (name.now.name ∷ expr_text expr.now ∷ [])) }
{
    put_pieces(out, &[b"(formula ", name.name().bytes(), b" "])?;
    put_expr(expr, out)?;
    out.put(b")")
}

#[tactic(auto, unfolding(crate::specs::Texts::form_text))]
fn put_form<S: Sink>(form: &Form, out: &mut S) -> Result<(), SinkFault>
    ensures { Wrote result (S.log out.old) (S.log out.new) (form_text form.now) }
{
    match form {
        Form::Index(name) => put_named(b"index", name, out),
        Form::Given(name, args, shape) => put_family(b"given", name, args.as_slice(), shape, out),
        Form::Choose(name, args, shape) => put_family(b"choose", name, args.as_slice(), shape, out),
        Form::Formula(name, expr) => put_formula(name, expr, out),
        Form::Manifest(name) => put_named(b"manifest", name, out),
    }
}

/// Each form on a line.
fn put_lines<S: Sink>(forms: &[Form], out: &mut S) -> Result<(), SinkFault>
    ensures { Wrote result (S.log out.old) (S.log out.new) (lines_text forms.now) }
{
    for form in forms {
        put_form(form, out)?;
        out.put(b"\n")?;
    }
    Ok(())
}

/// Writes a line for each form, the first with the specification's name. Takes no memory.
pub fn print<S: Sink>(forms: &Forms, out: &mut S) -> Result<(), SinkFault>
    ensures { Wrote result (S.log out.old) (S.log out.new) (forms_text (ast_of forms.now)) }
{
    put_pieces(out, &[b"(spec ", forms.name().bytes(), b")\n"])?;
    put_lines(forms.forms().as_slice(), out)
}
