//! Laws over the definitions alone. Nothing runs here: each function's contract is the law.
ghost use Rattle.nr_words.specs.Laws.{ArrivalCountsOne, AskSetsFlag, ReadersKeepNames, ReadersKeepNumbers, DecodeUndoesEncode, DecodeReadsWhatCounts, PlacesDiffer, PlacesAreBelowTotal};

/// An arrival changes the arrivals alone, by one modulo 2^40.
pub fn arrival_counts_one()
    ensures { ArrivalCountsOne }
{}

/// To ask changes the flag alone.
pub fn ask_sets_flag()
    ensures { AskSetsFlag }
{}

/// Neither an arrival nor a request changes what the word names.
pub fn readers_keep_names()
    ensures { ReadersKeepNames }
{}

/// Neither an arrival nor a request changes the ticket number that the word carries.
pub fn readers_keep_numbers()
    ensures { ReadersKeepNumbers }
{}

/// Words decode to a row set exactly where they begin with what encode makes of it.
pub fn decode_undoes_encode()
    ensures { DecodeUndoesEncode }
{}

/// Decode looks at word 0, and at two words for each row that it tells of.
pub fn decode_reads_what_counts()
    ensures { DecodeReadsWhatCounts }
{}

/// Two words of a layout lie in two places.
pub fn places_differ()
    ensures { PlacesDiffer }
{}

/// The places of a layout's words are those below its total.
pub fn places_are_below_total()
    ensures { PlacesAreBelowTotal }
{}
