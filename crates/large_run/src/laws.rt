//! The law does nothing: a caller learns its clauses.

ghost use Rattle.large_run.specs.LargeTexts.{LargeTextsAreRead, LargeTextsHaveNoFault};

use oz_sugar::texts_have_one_of_both;

/// The text of a large run of each size up to 1,000 reads as a program, and so it has no fault.
pub fn large_texts_are_read()
    ensures reads { LargeTextsAreRead }
    ensures no_fault { LargeTextsHaveNoFault }
{
    texts_have_one_of_both();
}
