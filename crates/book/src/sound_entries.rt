// What a zone counts of its tables, once they are found lawful.
ghost use Rattle.std.specs.Prelude.{◌≡◌, ◌≤◌, false, length};
ghost use Rattle.std.specs.List.{list_any};
ghost use Rattle.book.specs.Limits.{most_objects, most_operators};
ghost use Rattle.checks.specs.Tables.{one_of};
ghost use Rattle.book.specs.Refusals.{entry_faults, object_faults};

use crate::entries::{RegisterEntry, RollEntry};

// An object within its limits.
#[derive(Clone, Copy)]
pub(crate) struct Object<'a> {
    pub(crate) item: &'a RegisterEntry,
    ghost sound: { one_of (object_faults item.now) ≡ false },
}

// The objects that a zone counts. They and the operators are two types: one over the kind of an entry could not be copied,
// since no derive is to be had over the ghost fields of a generic type, and the two share no method.
#[derive(Clone, Copy)]
pub(crate) struct Objects<'a> {
    pub(crate) items: &'a [RegisterEntry],
    ghost few: { length items.now ≤ most_objects },
    ghost sound: { list_any (λ o. one_of (object_faults o)) items.now ≡ false },
}

// The operators that a zone counts.
#[derive(Clone, Copy)]
pub(crate) struct Operators<'a> {
    pub(crate) items: &'a [RollEntry],
    ghost few: { length items.now ≤ most_operators },
    ghost sound: { list_any (λ e. one_of (entry_faults e)) items.now ≡ false },
}
