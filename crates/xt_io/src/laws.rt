// The laws over bundles, as contracts of functions with empty bodies.
ghost use Rattle.xt_io.specs.Records.{AreRead, AreWhole};

/// Records that are written one after another are read as these items, whatever stands behind them.
pub fn records_are_read()
    ensures { AreRead }
{}

/// A bundle of records alone is read as these items.
pub fn records_are_a_bundle()
    ensures { AreWhole }
{}
