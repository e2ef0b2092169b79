//! Laws of kept labels, rules and places. Each function's contract is a law; its body does nothing.
ghost use Rattle.shard_rules.specs.Laws.{OneRuleFits, SitesAreOfTheirObject, KeptLabelsAreKnown, KeptLabelsRise, PlacesHaveEachKeptLabel, PlacesAreThoseOfSites, PlacesStandOnce, PlacesComeInOrder};
ghost use Rattle.shard_rules.specs.Served.{KeptLabelsAreTheFunctions, PlacesSayWhatSitesSay};
ghost use Rattle.shard_rules.specs.Rows.{RulesComeOutSo};

/// Whatever the sites of an object know, exactly one rule fits.
pub fn one_rule_fits()
    ensures { OneRuleFits }
{}

/// An object's kept labels are those that each of its sites knows, in text order.
pub fn kept_labels_are_known()
    ensures sites { SitesAreOfTheirObject }
    ensures known { KeptLabelsAreKnown }
    ensures rising { KeptLabelsRise }
{}

/// An object's places are those of its sites, each once and in their order, and each has one field
/// for each kept label.
pub fn places_are_those_of_sites()
    ensures fields { PlacesHaveEachKeptLabel }
    ensures places { PlacesAreThoseOfSites }
    ensures once { PlacesStandOnce }
    ensures order { PlacesComeInOrder }
{}

/// The places of a function's own sites say of keys what the sites say: keys are admissible at them
/// exactly where inputs that agree at two sites of a written object have equal hashes.
pub fn places_say_what_sites_say()
    ensures kept { KeptLabelsAreTheFunctions }
    ensures keys { PlacesSayWhatSitesSay }
{}

/// The kept labels, rules and places of some lists of sites, worked out by hand.
pub fn rules_come_out_so()
    ensures { RulesComeOutSo }
{}
