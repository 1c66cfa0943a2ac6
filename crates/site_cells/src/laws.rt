//! What follows of the tables of cells.

ghost use Rattle.site_cells.specs.Tables.{IsReceivableAsSites, ServingGoesOn};

/// A message of cells can be taken exactly where the definitions of a site say so.
pub fn tables_take_as_sites()
    ensures { IsReceivableAsSites }
{}

/// The threads that a Put serves exchange the content one by one: with each the cell stands as if it had been the last.
pub fn serving_goes_on()
    ensures { ServingGoesOn }
{}
