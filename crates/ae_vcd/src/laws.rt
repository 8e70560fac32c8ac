// What dumps are.

ghost use Rattle.ae_vcd.specs.Laws.{CommentsArePassed, DumpsAreRead, TextsAreDumps, WavesAreFormed, WavesAreOne, WordsAreJudged};

/// A law: the text of a formed wave is a dump of this wave.
pub fn texts_are_dumps()
    ensures { TextsAreDumps }
{}

/// A law: a text has one wave at most.
pub fn waves_are_one()
    ensures { WavesAreOne }
{}

/// A law: the words of a text are a dump, or one of them is the first at which they are none.
pub fn words_are_judged()
    ensures { WordsAreJudged }
{}

/// A law: where a text is a dump and its wave is within the limit, no word of it is bad, and it has no other wave.
pub fn dumps_are_read()
    ensures { DumpsAreRead }
{}

/// A law: a comment of whole lines without a `$` may stand before a dump, and changes nothing of its wave.
pub fn comments_are_passed()
    ensures { CommentsArePassed }
{}

/// A law: the wave of a dump is formed, where it is within the limit.
pub fn waves_are_formed()
    ensures { WavesAreFormed }
{}
