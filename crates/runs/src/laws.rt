ghost use Rattle.runs.specs.Laws.{Laws};

use shelf::Shelf;

// Does nothing: what it ensures holds of a session over this shelf after every list of calls.
pub fn laws_over_runs<S: Shelf>(shelf: &S)
    ensures laws { Laws (S.Shelf.rules shelf.now) }
{}
