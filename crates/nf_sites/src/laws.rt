//! Laws of sites. Each function's contract is a law; its body does nothing.
ghost use Rattle.nf_sites.specs.KnownLaws.{FieldsAreGiven, TogetherIs, SpeakersSpeak, NoneSpeaksWhere};
ghost use Rattle.nf_sites.specs.Laws.{ListsSayWhatIsAdmissible, RisingTextsRise, SitesOnPathsAreListed, ListedSitesAreOnPaths, SitesAreOfTheirPort, SitesStandInTextOrder, KeptLabelsAreKnown, LabelsKnownAreKept};

/// The sites of a function are those on feasible paths: all of them, and, where its text has
/// places, no others.
pub fn sites_are_on_feasible_paths()
    ensures all { SitesOnPathsAreListed }
    ensures only { ListedSitesAreOnPaths }
{}

/// The sites of a port are of that port, in the order of the text's places, whatever order the text
/// gives the labels of a `new` in.
pub fn sites_stand_in_text_order()
    ensures door { SitesAreOfTheirPort }
    ensures rising { SitesStandInTextOrder }
    ensures whole { RisingTextsRise }
{}

/// A label is kept exactly where it is known at each site of its object.
pub fn kept_labels_are_known()
    ensures known { KeptLabelsAreKnown }
    ensures kept { LabelsKnownAreKept }
{}

/// A value is known by a plain field of its label's width, and labels are together where each `new`
/// of their chain in the whole text sets both from one such field.
pub fn fields_are_plain()
    ensures given { FieldsAreGiven }
    ensures together { TogetherIs }
{}

/// A label that is named follows its own value; another one follows the first label in text order
/// that is named and together with it.
pub fn named_labels_speak()
    ensures some { SpeakersSpeak }
    ensures none { NoneSpeaksWhere }
{}

/// Where no place stands twice in the text, a hash is admissible by the listed sites and kept
/// labels exactly where it is so by the sites on feasible paths and the labels known at each of
/// them.
pub fn lists_say_what_is_admissible()
    ensures { ListsSayWhatIsAdmissible }
{}
