ghost use Rattle.std.specs.Prelude.{◌≡◌, ◌≤◌, ◌-◌, ◌++◌, length, take, OnOk};

use kts_base::{List, NoMemory};

/// Appends these items.
pub fn append(list: &mut List<u32>, items: &[u32]) -> Result<(), NoMemory>
    ensures { OnOk result (list.new ≡ list.old ++ items.now) }
{
    for item in items {
        list.push(*item)?;
    }
    Ok(())
}

/// Takes so many items from the end.
pub fn shorten(list: &mut List<u32>, count: usize)
    requires { count ≤ length list.old }
    ensures { list.new ≡ take (length list.old - count) list.old }
{
    for _popped in 0..count {
        list.pop();
    }
}
