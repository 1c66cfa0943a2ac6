//! The fixed order, as a law over all runs.

ghost use Rattle.plain_run.specs.Rounds.{AreTurnsDetermined, AreRunsDetermined};

/// The journal before a turn of a plain run tells whose turn it is and which message it takes. It does nothing: its clause is the
/// law.
pub fn turns_are_determined()
    ensures turns { AreTurnsDetermined }
{}

/// Two plain runs of one program, with the same limits, are the same where their turns tell the same threads: nothing else is left
/// open by the order. It does nothing: its clause is the law.
pub fn runs_are_determined()
    ensures runs { AreRunsDetermined }
{}
