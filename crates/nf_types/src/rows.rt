//! Worked rows: what the definitions make of a few trees.

ghost use Rattle.nf_types.specs.Rows.{NoPortIsTooFew, APortHasNoHandler, AVariableIsNotInScope, FaultsStandInTextOrder, AnyPortMayBeForwardedTo, AGetLooksWhereItCan, ANewGivesEachLabelOnce, AFindAsksLabels, NumbersPastTheSizeAreTooMany, ContentsAreTakenToTheWidth, TheFirewallIsAFunction, HandlersStandByPort};
ghost use Rattle.nf_types.specs.FamilyRows.{HandlersStandByFamily, AFieldIsOfTheHandlersFamily};
ghost use Rattle.nf_types.specs.Samples.{ThePolicerIsAFunction, PlacesCountAlongTheText, AFieldIsSet, TheTranslatorIsAFunction};

/// `nf x { ports 0; }` has its fault at the number.
pub fn no_port_is_too_few()
    ensures { NoPortIsTooFew }
{}

/// `nf x { ports 1; }` has its fault at the last brace.
pub fn a_port_has_no_handler()
    ensures { APortHasNoHandler }
{}

/// `nf x { ports 1; on 0 { touch e; } }` has its fault at the variable.
pub fn a_variable_is_not_in_scope()
    ensures { AVariableIsNotInScope }
{}

/// Five faults of one text.
pub fn faults_stand_in_text_order()
    ensures { FaultsStandInTextOrder }
{}

/// `nf x { ports 1; on 0 { forward 7; } }` is a function.
pub fn any_port_may_be_forwarded_to()
    ensures { AnyPortMayBeForwardedTo }
{}

/// A chain and a map that are not declared, and a value too few.
pub fn a_get_looks_where_it_can()
    ensures { AGetLooksWhereItCan }
{}

/// A `new` with five faults.
pub fn a_new_gives_each_label_once()
    ensures { ANewGivesEachLabelOnce }
{}

/// A `find` with three faults, and three writes that may not be.
pub fn a_find_asks_labels()
    ensures { AFindAsksLabels }
{}

/// Of the numbers past an array's size the first is too many.
pub fn numbers_past_the_size_are_too_many()
    ensures { NumbersPastTheSizeAreTooMany }
{}

/// Opening contents are taken to the width, and what is left is 0.
pub fn contents_are_taken_to_the_width()
    ensures { ContentsAreTakenToTheWidth }
{}

/// A firewall, declaration by declaration and statement by statement.
pub fn the_firewall_is_a_function()
    ensures { TheFirewallIsAFunction }
{}

/// Handlers stand by port, and places count along the text.
pub fn handlers_stand_by_port()
    ensures { HandlersStandByPort }
{}

/// A policer: a free column is read and written.
pub fn the_policer_is_a_function()
    ensures { ThePolicerIsAFunction }
{}

/// Two chains and an array, with look-ups of each kind and cells in each part of them.
pub fn places_count_along_the_text()
    ensures { PlacesCountAlongTheText }
{}

/// The time, the length and the protocol may not be set.
pub fn a_field_is_set()
    ensures { AFieldIsSet }
{}

/// A translator of addresses sets fields.
pub fn the_translator_is_a_function()
    ensures { TheTranslatorIsAFunction }
{}

/// A port's handlers stand by their version of IP, and that for IPv6 may be missing.
pub fn handlers_stand_by_family()
    ensures { HandlersStandByFamily }
{}

/// Each version of IP has addresses of its own, and needs one handler at most.
pub fn a_field_is_of_the_handlers_family()
    ensures { AFieldIsOfTheHandlersFamily }
{}
