// What holds of the order of permissions. The function does nothing: its clause is the law.
ghost use Rattle.std.specs.Prelude.{◌≡◌};
ghost use Rattle.share_records.specs.Order.{permission_cmp};

use crate::Permission;

/// Permissions go from the least, `Nothing`, over `ReadOnly` to the most, `ReadWrite`.
pub fn permissions_are_ordered()
    ensures { (a b : Permission) → ⟦<Permission as Ord>⟧.cmp a b ≡ permission_cmp a b }
{}
