ghost use Rattle.std.specs.Prelude.{◌≡◌, map, Ok, Err, MatchResult};
ghost use Rattle.serde_json.specs.View.{view};
ghost use Rattle.kts_data.specs.Json.{value_under, elements, so_many};

use crate::fault::{DataFault, Reason, fail_at};
use kts_base::Name;
use serde_json::Value;

/// The value under a name.
#[tactic(auto, unfolding(crate::specs::Json::value_under))]
pub fn find<'v>(value: &'v Value, name: &Name) -> Result<&'v Value, DataFault>
    ensures { MatchResult result (λ v. value_under name.now (view value.now) ≡ Ok (view v.now)) (λ f. value_under name.now (view value.now) ≡ Err f) }
{
    let text = match str::from_utf8(name.bytes()) {
        Ok(text) => text,
        Err(_) => unreachable!(),
    };
    match value.get(text) {
        Some(found) => Ok(found),
        None => fail_at(name, 0, Reason::MissingName),
    }
}

/// The elements of a list.
#[tactic(auto, unfolding(crate::specs::Json::elements))]
pub fn elements<'v>(value: &'v Value, name: &Name, element: usize) -> Result<&'v [Value], DataFault>
    ensures { MatchResult result (λ vs. elements name.now element (view value.now) ≡ Ok (map view vs.now)) (λ f. elements name.now element (view value.now) ≡ Err f) }
{
    match value.as_array() {
        Some(list) => Ok(list.as_slice()),
        None => fail_at(name, element, Reason::NotList),
    }
}

/// The elements of a list of so many.
#[tactic(auto, unfolding(crate::specs::Json::so_many))]
pub fn so_many<'v>(
    value: &'v Value,
    name: &Name,
    element: usize,
    count: usize,
) -> Result<&'v [Value], DataFault>
    ensures { MatchResult result (λ vs. so_many name.now element count (view value.now) ≡ Ok (map view vs.now)) (λ f. so_many name.now element count (view value.now) ≡ Err f) }
{
    match elements(value, name, element) {
        Err(fault) => Err(fault),
        Ok(values) => {
            if values.len() != count {
                return fail_at(name, element, Reason::WrongLength);
            }
            Ok(values)
        }
    }
}
