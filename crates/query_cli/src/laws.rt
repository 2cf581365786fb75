// What holds of all stores and histories.

ghost use Rattle.query_cli.specs.Laws.{CertificatesHold, OnlyStoresAreAccepted, StoresAreAccepted};
ghost use Rattle.query_cli.specs.Replay.{EmptyGrowthStays, HistoriesGoOn, HistoriesMakeStores};

/// Every history makes a store, and goes on with each command that its store accepts; an `append` of
/// no readings leaves the store as it is.
pub fn histories_make_stores()
    ensures stores { HistoriesMakeStores }
    ensures go_on { HistoriesGoOn }
    ensures empty { EmptyGrowthStays }
{}

/// `check` accepts the files that hold the bytes of a store, and no others.
pub fn stores_are_accepted()
    ensures accepted { StoresAreAccepted }
    ensures only { OnlyStoresAreAccepted }
{}

/// The certificate that `prove` prints of a store holds over that store.
pub fn certificates_hold()
    ensures { CertificatesHold }
{}
