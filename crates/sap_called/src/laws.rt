//! Laws of names as they are called, as contracts of functions that do nothing.
ghost use Rattle.sap_called.specs.NameLaws.{FactsAreToldAsSpelled, NamesAreCalledByTheirWords, NamesAreToldApart, NamesKeepTheirTexts, OtherNamesAreCalledByTheirNumbers, TermsAreToldAsSpelled};

/// A law: two names are called by two texts, whichever lines they are told at, and whatever bytes their words have; and a name that
/// was drawn is called the same at each later line.
pub fn names_are_told_apart()
    ensures apart { NamesAreToldApart }
    ensures kept { NamesKeepTheirTexts }
{}

/// A law: a name is called by its word and by which one of this word it is, where it was drawn, and else by its number.
pub fn names_are_called_by_their_words()
    ensures drawn { NamesAreCalledByTheirWords }
    ensures others { OtherNamesAreCalledByTheirNumbers }
{}

/// A law: where no name was drawn, terms and facts are told as they are spelled.
pub fn told_as_spelled()
    ensures terms { TermsAreToldAsSpelled }
    ensures facts { FactsAreToldAsSpelled }
{}
