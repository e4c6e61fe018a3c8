ghost use Rattle.std.specs.Prelude.{◌≡◌, ◌≤◌, ◌⊎◌, ◌↔◌, IfOk, IfErr, MatchResult, List as ListOf, ℕ, Ok, Err};
ghost use Rattle.kts_base.specs.Limits.{most_nesting};
ghost use Rattle.kts_base.specs.Reads.{Gives};
ghost use Rattle.kts_text.specs.Faults.{IsNoMemory, TreeFault as FaultOf};
ghost use Rattle.kts_text.specs.FirstFault.{IsFirstFault};
ghost use Rattle.kts_text.specs.Forest.{Forest, flat, nest};
ghost use Rattle.kts_text.specs.Grammar.{TreesOf};
ghost use Rattle.kts_text.specs.Reads.{trees_of};
ghost use Rattle.kts_text.specs.Shown.{trees_in};

use crate::fault::TreeFault;
use crate::scan::read_nodes;
use crate::trees::Trees;
use std::alloc::Global;

/// The trees that the bytes are a file of, or the first fault. The list of nodes is taken once, at 16 bytes a node.
pub fn read_trees<'a>(alloc: Global, bytes: &'a [u8]) -> Result<Trees<'a>, TreeFault>
    ensures text { IfOk result (λ trees. trees.text.now ≡ bytes.now) }
    ensures nodes { IfOk result (λ trees. trees.nodes ≡ flat 0 (trees_in trees)) }

    // The trees are those of the grammar; and where the grammar has trees, they are read.
    ensures found { IfOk result (λ trees. TreesOf bytes.now (trees_in trees)) }
    ensures only { (trees : Forest) → TreesOf bytes.now trees → MatchResult result (λ read. trees_in read ≡ trees) IsNoMemory }
    ensures first { IfErr result (λ fault. IsNoMemory fault ⊎ IsFirstFault bytes.now fault.kind fault.at) }

    // The same as a function of the bytes.
    ensures value { Gives IsNoMemory trees_in result (trees_of bytes.now) }
{
    let nodes = read_nodes(alloc, bytes)?;
    Ok(Trees { text: bytes, nodes })
}

/// What the grammar has is what the function gives, and its faults are the first faults.
pub fn grammar_law()
    ensures trees { (bytes : ListOf ℕ) (trees : Forest) → (TreesOf bytes trees ↔ (trees_of bytes ≡ Ok trees)) }
    ensures shallow { (bytes : ListOf ℕ) (trees : Forest) → trees_of bytes ≡ Ok trees → nest trees ≤ most_nesting }
    ensures faults { (bytes : ListOf ℕ) (fault : FaultOf) → trees_of bytes ≡ Err fault → IsFirstFault bytes fault.kind fault.at }
{}
