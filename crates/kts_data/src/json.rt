ghost use Rattle.std.specs.Prelude.{◌≡◌};
ghost use Rattle.serde_json.specs.View.{view};
ghost use Rattle.kts_base.specs.Reads.{Gives};
ghost use Rattle.kts_data.specs.Faults.{IsNoMemory};
ghost use Rattle.kts_data.specs.Json.{json_of};

use crate::fault::{DataFault, Reason, fail_whole};
use kts_base::NoMemory;
use serde_json::Value;
use std::alloc::Global;

/// The JSON value that the bytes are.
#[tactic(auto, unfolding(crate::specs::Json::json_of))]
pub fn read_json(alloc: Global, bytes: &[u8]) -> Result<Value, DataFault>
    ensures { Gives IsNoMemory view result (json_of bytes.now) }
{
    let text = match str::from_utf8(bytes) {
        Ok(text) => text,
        Err(_) => return fail_whole(0, Reason::NotJson),
    };
    match Value::from_str(alloc, text) {
        Ok(value) => Ok(value),
        Err(e) => {
            if e.is_memory() {
                return Err(DataFault::from(NoMemory));
            }
            fail_whole(0, Reason::NotJson)
        }
    }
}
