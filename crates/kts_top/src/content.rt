ghost use Rattle.std.specs.Prelude.{IfOk};
ghost use Rattle.kts_base.specs.Reads.{Gives};
ghost use Rattle.kts_syntax.specs.Shown.{ast_of};
ghost use Rattle.kts_check.specs.Forms.{parts};
ghost use Rattle.kts_top.specs.Contents.{Content, IsMade, IsNoMemory, content_of};

use crate::content_fault::ContentFault;
use kts_check::check;
use kts_spec::Spec;
use kts_syntax::{Forms, read_forms};
use kts_text::read_trees;
use std::alloc::Global;

/// The well typed forms of a file with the specification that they say, or its first tree fault, or the first form fault of
/// its trees, or the first fault in the types of its forms.
pub fn read_content(alloc: Global, bytes: &[u8]) -> Result<(Forms, Spec), ContentFault>
    ensures content { Gives IsNoMemory (λ read. let content : Content = record { ast = ast_of read.0; parts = parts read.1 } in content) result (content_of bytes.now) }
    ensures made { IfOk result (λ read. IsMade read.1) }
{
    let trees = read_trees(alloc, bytes)?;
    let forms = read_forms(alloc, &trees)?;
    let spec = check(alloc, &forms)?;
    Ok((forms, spec))
}
