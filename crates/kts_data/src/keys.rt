ghost use Rattle.std.specs.Prelude.{◌≡◌, ◌++◌, map};
ghost use Rattle.serde_json.specs.View.{members_view};
ghost use Rattle.std.specs.List.{list_any};
ghost use Rattle.kts_spec.specs.Names.{is_among, same_name};
ghost use Rattle.kts_data.specs.Json.{keys, unknown_from};

use kts_base::Name;
use kts_spec::Family;
use serde_json::{Map, Value};

fn is_name_among(names: &[Name], key: &[u8]) -> bool
    ensures { result ≡ is_among names.now key.now }
{
    names.iter().any(|name| key == name.bytes())
}

fn is_family_among(families: &[Family], key: &[u8]) -> bool
    ensures { result ≡ list_any (λ family. same_name key.now family.name) families.now }
{
    families.iter().any(|family| key == family.name().bytes())
}

/// The number, in byte order, of the first key that is the name of no such index and of no such family.
pub fn unknown_key(
    indexes: &[Name],
    families: &[Family],
    object: &Map<String, Value>,
) -> Option<usize>
    ensures { result ≡ unknown_from (indexes.now ++ map (λ family. family.name) families.now) 0 (keys (members_view object.now.entries)) }
{
    for (k, (key, _)) in object.iter().enumerate() {
        if !is_declared(indexes, families, key.as_bytes()) {
            return Some(k);
        }
    }
    None
}

fn is_declared(indexes: &[Name], families: &[Family], key: &[u8]) -> bool
    ensures { result ≡ is_among (indexes.now ++ map (λ family. family.name) families.now) key.now }
{
    is_name_among(indexes, key) || is_family_among(families, key)
}
