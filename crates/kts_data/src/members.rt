ghost use Rattle.std.specs.Prelude.{◌≡◌, [], map};
ghost use Rattle.serde_json.specs.View.{view};
ghost use Rattle.kts_base.specs.Reads.{Gives};
ghost use Rattle.kts_data.specs.Faults.{IsNoMemory, fold_read};
ghost use Rattle.kts_data.specs.Instances.{member_after, with_member, members_of};

use crate::fault::{DataFault, Reason, fail_at};
use crate::lookup::elements;
use crate::roster::Roster;
use kts_base::{MAX_MEMBERS, Name};
use serde_json::Value;
use std::alloc::Global;

/// A member after those that are taken.
#[tactic(auto, unfolding(crate::specs::Instances::member_after))]
fn member_after(index: &Name, taken: &Roster, value: &Value) -> Result<Name, DataFault>
    ensures { result ≡ member_after index.now taken.now (view value.now) }
{
    let element = taken.len();
    let text = match value.as_str() {
        Some(text) => text,
        None => return fail_at(index, element, Reason::NotText),
    };
    match Name::new(text.as_bytes()) {
        None => fail_at(index, element, Reason::BadName),
        Some(name) => {
            if taken.contains(&name) {
                return fail_at(index, element, Reason::Repeated);
            }
            Ok(name)
        }
    }
}

/// The members of an index, in order.
#[tactic(auto, unfolding(crate::specs::Instances::members_of))]
pub fn members_of(alloc: Global, index: &Name, value: &Value) -> Result<Roster, DataFault>
    ensures { Gives IsNoMemory (λ roster. roster) result (members_of index.now (view value.now)) }
{
    let values = elements(value, index, 0)?;
    if values.len() > MAX_MEMBERS {
        return fail_at(index, 0, Reason::TooManyMembers(values.len() as u64));
    }
    members_in(alloc, index, values)
}

fn members_in(alloc: Global, index: &Name, values: &[Value]) -> Result<Roster, DataFault>
    ensures { Gives IsNoMemory (λ roster. roster) result (fold_read (with_member index.now) [] (map view values.now)) }
{
    let mut taken = Roster::new(alloc);
    for value in values {
        let name = member_after(index, &taken, value)?;
        taken.take(name)?;
    }
    Ok(taken)
}
