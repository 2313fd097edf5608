// Laws of the definitions alone.
ghost use Rattle.tr_text.specs.Written.{FullTextLaw, FullTextsLaw};

/// Two entries with one full text differ only in what no text shows.
pub fn full_text_law()
    ensures { FullTextLaw }
{}

/// Two traces with one full text have as many entries, and each two differ only in what no text shows.
pub fn full_texts_law()
    ensures { FullTextsLaw }
{}
