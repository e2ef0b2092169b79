//! The statements that a course comes to, and where it ends.
ghost use Rattle.nf_laws.specs.Courses.{CoursesAreOfTheText, CoursesEndWhereTheyCome, CoursesFallOffAtAnEnd};
ghost use Rattle.nf_laws.specs.Telling.{EachStatementIsTold, NothingElseIsTold};

/// Exactly what the statements do that a course comes to stands in its record.
pub fn courses_are_told()
    ensures text { CoursesAreOfTheText }
    ensures each { EachStatementIsTold }
    ensures only { NothingElseIsTold }
{}

/// A course ends, or falls off, at an end that it comes to, in the context there.
pub fn courses_end_where_they_come()
    ensures ends { CoursesEndWhereTheyCome }
    ensures falls { CoursesFallOffAtAnEnd }
{}
