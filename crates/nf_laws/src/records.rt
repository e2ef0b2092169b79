//! What the record of a packet tells.
ghost use Rattle.nf_laws.specs.Telling.{OperationsAreTold, QuestionsAreTold, NewsAreTold, EndsAreTold};
ghost use Rattle.nf_laws.specs.Answers.{ResultsAreOfNews, LegalRecordsAreAnswered, FullAnswersAreTold};
ghost use Rattle.nf_laws.specs.Places.{EventsStandAtPlaces, PlacesAreOfTheText, PlacesAreOfOneStatement, PlacesRise};

/// What a statement reads, does and asks stands in its record.
pub fn statements_are_told()
    ensures operations { OperationsAreTold }
    ensures questions { QuestionsAreTold }
    ensures news { NewsAreTold }
    ensures ends { EndsAreTold }
{}

/// Each question, each `new` and each access to a cell has a place, which is one of the text's.
pub fn events_stand_at_places()
    ensures places { EventsStandAtPlaces }
    ensures text { PlacesAreOfTheText }
{}

/// A place of a text is that of one statement, and those of statements rise along each handler.
pub fn places_rise()
    ensures one { PlacesAreOfOneStatement }
    ensures rise { PlacesRise }
{}

/// A record is legal where no choice was illegal and no `new` stopped, and answers full where some
/// `new` found no index vacant.
pub fn answers_are_told()
    ensures news { ResultsAreOfNews }
    ensures legal { LegalRecordsAreAnswered }
    ensures full { FullAnswersAreTold }
{}
