// Whether two pieces of JSON are the same.
ghost use Rattle.std.specs.Prelude.{◌≡◌, ◌↔◌, IsTrue, IfOk};
ghost use Rattle.serde_json.specs.View.{view};
ghost use Rattle.field_values.specs.Exact.{IsExact};

use ck_base::NoMemory;
use serde_json::Value as Json;
use std::alloc::Global;

/// Whether the two are the same JSON, which is told where the second has no float and nests at most
/// 127 deep. It fails only where memory runs out.
pub fn same_json(alloc: Global, one: &Json, other: &Json) -> Result<bool, NoMemory>
    ensures { IfOk result (λ same. IsExact (view other.now)
        → (IsTrue same ↔ (view one.now ≡ view other.now))) }
{
    let one = one.to_string(alloc)?;
    let other = other.to_string(alloc)?;
    Ok(one == other)
}
