ghost use Rattle.store_file.specs.Added.{AddingKeepsStores, RoomIsEnough};
ghost use Rattle.store_file.specs.Facts.{StoresHaveFacts};
ghost use Rattle.store_file.specs.Grown.{AppendsAreLoads, FittedStoresAreOne, FittedStoresStay, GrowingKeepsStores, GrowthHasRoom};
ghost use Rattle.store_file.specs.Header.{FixedReadsBack, EntryReadsBack};
ghost use Rattle.store_file.specs.StoreValue.{ImagesDiffer};
ghost use Rattle.store_file.specs.Worked.{OneReadingHasBytes, SixFieldsHaveBytes, TurnsHaveBytes};

/// Two stores never have the same bytes.
pub fn images_differ()
    ensures { ImagesDiffer }
{}

/// The parts of a header are read as they were written.
pub fn headers_keep()
    ensures fixed { FixedReadsBack }
    ensures entry { EntryReadsBack }
{}

/// The bytes of small stores: one reading 7, a record whose fields all differ, and 32 readings, 0 and 10 in turn.
pub fn small_stores_have_bytes()
    ensures one { OneReadingHasBytes }
    ensures fields { SixFieldsHaveBytes }
    ensures turns { TurnsHaveBytes }
{}

/// A store with one more series, where it may have one, is a store again.
pub fn adding_keeps_stores()
    ensures { AddingKeepsStores }
{}

/// With room for the nodes of the longest series the arena refuses no series.
pub fn room_is_enough()
    ensures { RoomIsEnough }
{}

/// The facts of a store are few, small, and of names that differ.
pub fn stores_have_facts()
    ensures { StoresHaveFacts }
{}

/// A store with more readings in one of its series, where it may have them, is a store again.
pub fn growing_keeps_stores()
    ensures { GrowingKeepsStores }
{}

/// With room for the nodes of the longest series the arena refuses no readings.
pub fn growth_has_room()
    ensures { GrowthHasRoom }
{}

/// What loads and appends make is fitted, and names and readings are all that it depends on: so a store to which
/// readings were appended has the bytes of one that was loaded with all of them.
pub fn appends_are_loads()
    ensures stay { FittedStoresStay }
    ensures one { FittedStoresAreOne }
    ensures loads { AppendsAreLoads }
{}
