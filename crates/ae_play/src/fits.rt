// When a circuit can be fed.

ghost use Rattle.ae_play.specs.Fits.{CanBeFed};

/// A law: a circuit whose inputs are the reset and a word of each column can be fed with blocks of words that fit.
pub fn can_be_fed()
    ensures { CanBeFed }
{}
