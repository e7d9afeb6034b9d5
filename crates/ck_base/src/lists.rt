// Lists that contracts see as lists.
ghost use Rattle.std.specs.Prelude.{◌≡◌, IfOk};

use crate::{RecordName, Text, ZoneKey};
pub use sqlite_items::Items;
use std::alloc::{AllocError, Global};

/// Names of records, of fields or of subscriptions.
pub type RecordNames = Items<RecordName>;

/// Keys of zones.
pub type ZoneKeys = Items<ZoneKey>;

/// Texts.
pub type Texts = Items<Text>;

/// A copy of the list. It equals the list where a copy of an item equals the item.
pub fn clone_items<T: Clone + Drop>(alloc: Global, items: &[T]) -> Result<Items<T>, AllocError>
    ensures { IfOk result (λ copy. ((x y : T) → T.is_clone x y → y ≡ x) → copy ≡ items.now) }
{
    let items = items.to_vec(alloc)?;
    Ok(Items::from_vec(items))
}
