// Theorems about a session's events, each on the contract of a function.
ghost use Rattle.session.specs.Files.{OneRow, OneFault};
ghost use Rattle.session.specs.Rows.{HandedOnce};

// A file is one row of events at most, and a row of events is not in fault anywhere; no file is in fault at two bytes.
pub fn one_row()
    ensures row { OneRow }
    ensures fault { OneFault }
{}

/// Each frame that a peer plays is handed out once, when its tick plays it.
#[tactic(auto, using(crate::proofs::Heard::handed_once))]
pub fn handed_once()
    ensures { HandedOnce }
{}
