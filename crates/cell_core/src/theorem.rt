ghost use Rattle.cell_core.specs.Theorem.{CoreLaws};

/// What holds of every list of lawful events, in whatever order threads made them: no full cell changes, an identifier stands in at
/// most one cell, what is found stays found, and finds of one identifier agree.
pub fn finds_agree()
    ensures { CoreLaws }
{}
