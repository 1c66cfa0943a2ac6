//! Laws of the definitions.

ghost use Rattle.kernel_syntax.specs.Laws.{FreeUnfolds, FreeAscends, FreeIsUsed, FreeIsFew, ProgramsAreClosed, OwnersHaveFree, NamesAreFree, DivisionIsExact, RestHasSign, NumbersFit};

/// The free positions of a statement are found from those of its bodies.
pub fn free_unfolds()
    ensures { FreeUnfolds }
{}

/// Free positions ascend, and are those that the code uses and does not declare. In a whole program there are none.
pub fn free_is_used()
    ensures ascends { FreeAscends }
    ensures used { FreeIsUsed }
    ensures closed { ProgramsAreClosed }
{}

/// What a statement names, and what is free in its bodies and not declared for them, is free in the statement.
pub fn free_goes_out()
    ensures names { NamesAreFree }
    ensures bodies { OwnersHaveFree }
{}

/// The quotient of `div` and the rest of `mod` make up the dividend; the rest is smaller than the divisor and has the
/// dividend's sign. Every integer that an operator gives fits 128 bits.
pub fn operators_divide()
    ensures exact { DivisionIsExact }
    ensures sign { RestHasSign }
    ensures fit { NumbersFit }
{}

/// A statement of a program has at most 12,800 free positions, each below that.
pub fn free_is_few()
    ensures { FreeIsFew }
{}
