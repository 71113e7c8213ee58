//! Laws of the rows of items after an edit.

ghost use Rattle.bench_parts.specs.ItemLaws.{ItemPartsGoOn, ItemsArePartsAfter, ItemsWithoutStampAreGone, EqualItemsKeepStamps, HistoriesGoOn, ItemsDoWhatIsRead, ItemRowsAreStamped, ItemsStayInOrder, ReadItemsAreHeld, ItemsHaveTheirKinds, KindsFollowRoles};

/// What an item says is as it was, under the stamp that it had, or has the number of the edit, or
/// the item is gone.
pub fn item_parts_go_on()
    ensures { ItemPartsGoOn }
{}

/// So each item is a part of the later state as an edit of that number leaves it.
pub fn items_are_parts_after()
    ensures { ItemsArePartsAfter }
{}

/// An item that has no stamp is not there.
pub fn items_without_stamp_are_gone()
    ensures { ItemsWithoutStampAreGone }
{}

/// An item that says what it said keeps its stamp.
pub fn equal_items_keep_stamps()
    ensures { EqualItemsKeepStamps }
{}

/// Each name of an item keeps its number, and an item that does what it did has no new name.
pub fn histories_go_on()
    ensures { HistoriesGoOn }
{}

/// An item does what is read of it, where its model has no fault and no two items have one number.
pub fn items_do_what_is_read()
    ensures { ItemsDoWhatIsRead }
{}

/// An item has a stamp, up to the number of the edit.
pub fn item_rows_are_stamped()
    ensures { ItemRowsAreStamped }
{}

/// The rows are those of the items in their order, each with its number and, beside it, its kind.
pub fn items_stay_in_order()
    ensures { ItemsStayInOrder }
{}

/// Where items do what is read of them, each item of a model without fault does what it is resolved
/// to.
pub fn read_items_are_held()
    ensures { ReadItemsAreHeld }
{}

/// An item that is a node by its text is one of that kind.
pub fn items_have_their_kinds()
    ensures { ItemsHaveTheirKinds }
{}

/// Where a model has no fault, what an item does has the kind that the item has by its text.
pub fn kinds_follow_roles()
    ensures { KindsFollowRoles }
{}
