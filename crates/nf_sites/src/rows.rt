//! Worked rows, as the definitions compute them.
ghost use Rattle.nf_sites.specs.CoverRows.{SortsAreTold, EntriesAreFoundFirst, ValuesAreGiven};
ghost use Rattle.nf_sites.specs.OrderRows.{LabelsInAnyOrder};
ghost use Rattle.nf_sites.specs.Rows.{SitesKnow, LabelsAreTogether, TextsHaveSites, HashesAreAdmissible};

/// The sites of a policer, a NAT, a bridge, a function with a look-up that only its `new` makes,
/// and one with an array: which labels are known at them, and which are kept.
pub fn sites_know_labels()
    ensures { SitesKnow }
{}

/// Which labels are together, and what they are known by.
pub fn labels_are_together()
    ensures { LabelsAreTogether }
{}

/// The sites of a text with every kind of statement, and of one with a place that is never reached.
pub fn texts_have_sites()
    ensures { TextsHaveSites }
{}

/// The sites of a `new` whose labels the text gives in another order than the chain declares them:
/// the cells that they read stand as the text has them.
pub fn labels_are_given_in_any_order()
    ensures { LabelsInAnyOrder }
{}

/// At a policer's port a hash of the destination address is admissible, and one of the source is
/// not; at a NAT's two ports one of the far end's address is. A chain that is never written asks
/// for nothing, nor do the sites of two chains together.
pub fn hashes_are_admissible()
    ensures { HashesAreAdmissible }
{}

/// Which sorts of sites look keys up, bind variables and access cells, and which each event has.
pub fn sorts_are_told()
    ensures { SortsAreTold }
{}

/// An operation on a variable's entry is at the place of an earlier event that touches the entry.
pub fn entries_are_found_first()
    ensures { EntriesAreFoundFirst }
{}

/// A policer touches keys and entries by the destination address, at its second port alone; an
/// array's cells are touched by the indices that are given.
pub fn values_are_given()
    ensures { ValuesAreGiven }
{}
