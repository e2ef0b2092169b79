//! Laws over the definitions. Each function's contract is one law; its body does nothing.
ghost use Rattle.certificate_write.specs.Laws.{LinesAreReadBack, HeadingsAreReadBack};

/// The text of a line behind the first is read as that line.
pub fn lines_are_read_back()
    ensures { LinesAreReadBack }
{}

/// The text of a first line is read as what it says.
pub fn headings_are_read_back()
    ensures { HeadingsAreReadBack }
{}
