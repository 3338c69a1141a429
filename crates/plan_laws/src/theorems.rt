// What is shown of the definitions; the calls only name it.
ghost use Rattle.plan_laws.specs.Theorems.{FirstBadWord, AcceptedKeepsLimits, GoodWordsGoOn};

// A plan is refused at its first bad word: what follows that word cannot change the refusal.
pub fn first_bad_word_decides()
    ensures { FirstBadWord }
{}

// An accepted plan keeps every limit.
pub fn limits_are_kept()
    ensures { AcceptedKeepsLimits }
{}

// Words none of which is wrong begin a plan that is accepted, but for those just before a comparison too many.
pub fn good_words_go_on()
    ensures { GoodWordsGoOn }
{}
