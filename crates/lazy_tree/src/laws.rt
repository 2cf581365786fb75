// What a header read from parts has to do with the store for which the whole file stands.

ghost use Rattle.lazy_tree.specs.Laws.{DecodedIsRefusal, RefusalIsDecoded};

/// A header is refused exactly where a store decoded from the whole file would be no store, and at the same place.
pub fn headers_are_decoded()
    ensures refused { RefusalIsDecoded }
    ensures decoded { DecodedIsRefusal }
{}
