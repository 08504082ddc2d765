// The law of runs.
ghost use Rattle.sessions.specs.Laws.{RunsInPieces};

// A text in pieces that end with their lines answers what the whole text answers.
pub fn runs_in_pieces()
    ensures { RunsInPieces }
{}
