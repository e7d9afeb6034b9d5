// What holds of the order of keys. The function does nothing: its clause is the law.
ghost use Rattle.std.specs.Prelude.{◌≡◌};
ghost use Rattle.ck_base.specs.Order.{key_cmp};

use crate::ZoneKey;

/// Keys go by the bytes of their owners, and those of one owner by the bytes of their names.
pub fn keys_are_ordered()
    ensures { (a b : ZoneKey) → ⟦<ZoneKey as Ord>⟧.cmp a b ≡ key_cmp a b }
{}
