// The text of lists in replies. The JSON of an entry is made when it is written; both are dropped behind it.
ghost use Rattle.std.specs.Prelude.{◌≡◌, ◌<◌, ◌++◌, ◌∷◌, List, false, IfOk, OnOk, length, string_bytes};
ghost use Rattle.std.specs.List.{AllByRecursion};
ghost use Rattle.serde_json.specs.Data.{Data, array};
ghost use Rattle.serde_json.specs.View.{view, items_of};
ghost use Rattle.serde_json.specs.Written.{has_float, comma_if, compact_text};
ghost use Rattle.wire_calls.specs.Lists.{list_data, IsRead};

use ck_base::NoMemory;
use serde_json::Value as Json;
use std::alloc::Global;

/// The entries of a list in a reply, whose JSON is made one at a time.
pub(crate) trait Entries {
    ghost told: { Self → List Data };

    /// How many there are.
    fn count(&self) -> usize
        ensures { result ≡ length (told self.now) };

    /// Takes the first entry out of the list, and makes its JSON.
    fn take_json(&mut self, alloc: Global) -> Result<Json, NoMemory>
        requires { 0 < length (told self.old) }
        ensures json { IfOk result (λ json. told self.old ≡ view json ∷ told self.new) }
        ensures whole { IfOk result (λ json. has_float (view json) ≡ false) };
}

// Adds JSON to a text, behind a comma where something stands before it.
fn push_json(alloc: Global, text: &mut String, later: bool, json: Json) -> Result<(), NoMemory>
    requires { has_float (view json) ≡ false }
    ensures text { OnOk result (string_bytes text.new
        ≡ string_bytes text.old ++ (comma_if later ++ compact_text (view json))) }
    ensures read { OnOk result (IsRead (view json)) }
{
    if later {
        text.push_str(",")?;
    }
    let written = json.to_string(alloc)?;
    text.push_str(written.as_str())?;
    Ok(())
}

// Adds a list to a text.
fn push_list<L: Entries>(alloc: Global, text: &mut String, list: &mut L) -> Result<(), NoMemory>
    ensures text { OnOk result (string_bytes text.new
        ≡ string_bytes text.old ++ compact_text (array (items_of (L.told list.old)))) }
    ensures read { OnOk result (AllByRecursion IsRead (L.told list.old)) }
{
    text.push_str("[")?;
    for place in 0..list.count() {
        let json = list.take_json(alloc)?;
        push_json(alloc, text, place > 0, json)?;
    }
    text.push_str("]")?;
    Ok(())
}

/// The text of an object with a list alone, written entry by entry, each of which is dropped behind it.
pub(crate) fn list_text<L: Entries>(
    alloc: Global,
    name: &str,
    list: &mut L,
) -> Result<String, NoMemory>
    ensures text { IfOk result (λ text.
        string_bytes text ≡ compact_text (list_data name.now (L.told list.old))) }
    ensures read { IfOk result (λ _. AllByRecursion IsRead (L.told list.old)) }
{
    let mut text = String::new(alloc);
    text.push_str("{")?;
    push_json(alloc, &mut text, false, Json::try_from_str(alloc, name)?)?;
    text.push_str(":")?;
    push_list(alloc, &mut text, list)?;
    text.push_str("}")?;
    Ok(text)
}
