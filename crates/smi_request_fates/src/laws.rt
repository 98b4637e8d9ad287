//! What holds of the fates of requests, and of what is kept of them, as contracts of functions that do nothing.
ghost use Rattle.smi_request_fates.specs.Laws.{CountsHaveRoom, CountsRise, FatesMore, FatesStay, HeldTell, LetterIsOpen, OpenIsOpen, ReplacedTell, StandsAfter, StartsOnce, UnstartedWait, WatchedTell};

/// What one more entry changes; a last fate stays in legal journals; counts only rise; how an object stood is how it
/// stood right after the entry that ended the request; a request starts once; one with a number that did not start yet
/// waits; one that is open is what is open at its object.
pub fn laws_of_fates()
    ensures more { FatesMore }
    ensures stay { FatesStay }
    ensures rise { CountsRise }
    ensures after { StandsAfter }
    ensures once { StartsOnce }
    ensures unstarted { UnstartedWait }
    ensures opened { OpenIsOpen }
    ensures letter { LetterIsOpen }
{}

/// What is kept goes on telling what the journal says as requests are watched, and counts have room while the journal
/// has.
pub fn laws_of_keeping()
    ensures watched { WatchedTell }
    ensures replaced { ReplacedTell }
    ensures held { HeldTell }
    ensures room { CountsHaveRoom }
{}
