//! Laws over the definitions. Each function's contract is one law; its body does nothing.
ghost use Rattle.certificate_laws.specs.Laws.{ChecksRefute, RefutedIsNearest};
ghost use Rattle.certificate_laws.specs.Certificates.{LockedIsLocked, GivenAreGiven};
ghost use Rattle.certificate_laws.specs.Due.{LinesRefute, LinesRefuteAll, TreesAreTaken};
ghost use Rattle.certificate_laws.specs.Complete.{RefutedHasTree};
ghost use Rattle.certificate_laws.specs.Verdicts.{LockedIsVerdict, GivenIsVerdict};

/// A tree that checks refutes: no solution of the rows that has the fixed bits meets every span.
pub fn checks_refute()
    ensures { ChecksRefute }
{}

/// A vector is the nearest one where the wanted bit is refuted at each place at which it has the
/// other.
pub fn refuted_is_nearest()
    ensures { RefutedIsNearest }
{}

/// Where a certificate says so, no admissible keys spread.
pub fn locked_is_locked()
    ensures { LockedIsLocked }
{}

/// Where a certificate says so, keys are the given ones.
pub fn given_are_given()
    ensures { GivenAreGiven }
{}

/// Lines behind which nothing is due refute.
pub fn lines_refute()
    ensures { LinesRefute }
{}

/// So for each bit that is not the wanted one.
pub fn lines_refute_all()
    ensures { LinesRefuteAll }
{}

/// The lines of a tree that checks are right.
pub fn trees_are_taken()
    ensures { TreesAreTaken }
{}

/// A function is locked where a certificate says so.
pub fn locked_is_verdict()
    ensures { LockedIsVerdict }
{}

/// A function is sharded with the keys of a certificate.
pub fn given_is_verdict()
    ensures { GivenIsVerdict }
{}

/// Whatever is refuted has a tree that checks.
pub fn refuted_has_tree()
    ensures { RefutedHasTree }
{}
