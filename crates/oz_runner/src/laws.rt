//! Laws of the definitions. The functions do nothing: their clauses are the laws.

ghost use Rattle.oz_runner.specs.Laws.{CausesExclude, SavedRunsAreRight};

use oz_model::runs_are_determined;
use oz_sugar::texts_have_one_of_both;
use run_check::again_is_exact;
use run_file::bytes_save_or_fail;
use world_simulation::runs_take_rows;

/// Where the source tells its bytes, and the count of its faults can rise, a call has the cause of one status at most, those of
/// failed writes and of want of memory left out: so each of the others comes wherever its cause holds, unless a write fails or memory
/// is wanting.
pub fn causes_exclude()
    ensures { CausesExclude }
{
    texts_have_one_of_both();
    runs_are_determined();
    bytes_save_or_fail();
    again_is_exact();
}

/// A saved run that one call had to write is right to another that reads it, from a source that tells its bytes, with the word `check`:
/// it comes to the same journal, or reading, writing, the length or memory stands in the way.
pub fn saved_runs_are_right()
    ensures { SavedRunsAreRight }
{
    texts_have_one_of_both();
    bytes_save_or_fail();
    again_is_exact();
    runs_take_rows();
}
