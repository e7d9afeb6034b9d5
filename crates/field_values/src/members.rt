// Members of JSON objects.
ghost use Rattle.std.specs.Prelude.{◌≡◌, option_map};
ghost use Rattle.serde_json.specs.View.{view};
ghost use Rattle.field_values.specs.Members.{found, unless_null};

use serde_json::Value as Json;

/// The member of an object, where it is there and not null.
pub fn member<'a>(json: &'a Json, name: &str) -> Option<&'a Json>
    ensures { option_map (λ v. view v.now) result ≡ found name.now (view json.now) }
{
    match json.get(name) {
        Some(value) => unless_null(value),
        None => None,
    }
}

/// The value, where it is not null.
pub fn unless_null(value: &Json) -> Option<&Json>
    ensures { option_map (λ v. view v.now) result ≡ unless_null (view value.now) }
{
    match value {
        Json::Null => None,
        _ => Some(value),
    }
}
