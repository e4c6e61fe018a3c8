ghost use Rattle.std.specs.Prelude.{◌≡◌, ◌<◌, ◌++◌, length, take, OnOk, OnErr};

use kts_base::{List, NoMemory};
use kts_code::Instr;

/// Appends instructions. After a refusal the list is as before.
pub fn append(list: &mut List<Instr>, instrs: &[Instr]) -> Result<(), NoMemory>
    ensures ok { OnOk result (list.new ≡ list.old ++ instrs.now) }
    ensures err { OnErr result (list.new ≡ list.old) }
{
    let count = list.len();
    let appended = append_some(list, instrs);
    if appended.is_err() {
        cut(list, count);
    }
    appended
}

/// Appends instructions; after a refusal some of them.
#[tactic(auto, using(crate::proofs::AppendedCode::front_stays))]
fn append_some(list: &mut List<Instr>, instrs: &[Instr]) -> Result<(), NoMemory>
    ensures ok { OnOk result (list.new ≡ list.old ++ instrs.now) }
    ensures err { OnErr result (take (length list.old) list.new ≡ list.old) }
{
    for instr in instrs {
        list.push(*instr)?;
    }
    Ok(())
}

/// Drops what is behind the first so many instructions.
fn cut(list: &mut List<Instr>, count: usize)
    ensures { list.new ≡ take count list.old }
{
    while list.len() > count {
        drop_last(list, count);
    }
}

/// Drops the last instruction, which is behind the first so many.
#[tactic(auto, using(crate::proofs::AppendedCode::front_left))]
fn drop_last(list: &mut List<Instr>, count: usize)
    requires { count < length list.old }
    ensures front { take count list.new ≡ take count list.old }
    ensures fewer { length list.new < length list.old }
{
    match list.pop() {
        Some(_last) => {}
        None => {}
    }
}
