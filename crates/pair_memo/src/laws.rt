ghost use Rattle.pair_memo.specs.Bound as law;

/// Of pairs that two identifiers reach, at most four times as many examinations are noted as there are pairs.
#[tactic(auto, using(crate::proofs::Bound::few))]
pub fn notes_are_few()
    ensures { law.NotesAreFew }
{}
