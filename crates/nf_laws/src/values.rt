//! The values of a text.
ghost use Rattle.nf_laws.specs.Values.{HaveTheirWidths, FieldsAreRead, ValuesAreNarrowed, OperatorsCompute, ValuesStayInBounds, ComparisonsCompare, VariablesRead, FreedVariablesReadNothing, CellsRead, ExpressionsRead};

/// Widths and fields have their bits, and a packet's fields are read as they came.
pub fn fields_have_their_widths()
    ensures widths { HaveTheirWidths }
    ensures read { FieldsAreRead }
{}

/// A value taken to a width is itself where it fits, and else what is left of it in so many bits.
pub fn values_are_narrowed()
    ensures { ValuesAreNarrowed }
{}

/// Sums and products stop at 2^64 - 1 and differences at 0; a division by 0 gives 0.
pub fn operators_compute()
    ensures results { OperatorsCompute }
    ensures bounds { ValuesStayInBounds }
{}

/// Each comparison holds exactly where its sign says so.
pub fn comparisons_compare()
    ensures { ComparisonsCompare }
{}

/// A variable reads its live entry and a cell within its array its value; all else reads 0.
pub fn expressions_read()
    ensures variables { VariablesRead }
    ensures freed { FreedVariablesReadNothing }
    ensures cells { CellsRead }
    ensures rest { ExpressionsRead }
{}
