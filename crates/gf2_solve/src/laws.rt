//! Laws over the definition of the nearest solution. Each function's contract is one law; its body
//! does nothing.
ghost use Rattle.gf2_solve.specs.Laws.{NearestIsOne, NearestIsFirst, FirstIsNearest};

/// Two nearest solutions are equal.
pub fn nearest_is_one()
    ensures { NearestIsOne }
{}

/// Where another solution with a 1 in each group first differs from the nearest one, the nearest
/// one has the wanted bit.
pub fn nearest_is_first()
    ensures { NearestIsFirst }
{}

/// A solution with a 1 in each group that has the wanted bit wherever another one first differs
/// from it is the nearest.
pub fn first_is_nearest()
    ensures { FirstIsNearest }
{}
