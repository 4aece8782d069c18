//! What holds of all series.
ghost use Rattle.series.specs.Laws.{QuotesDecide, FewQuotesFit};

/// Series that stand for the same quotes have the same bars: what `copy` and `copy_buffer` answer depends on
/// the quotes so far alone.
pub fn quotes_decide()
    ensures { QuotesDecide }
{}

/// No volume of a bar of at most 100,000,000 quotes leaves its type.
pub fn few_quotes_fit()
    ensures { FewQuotesFit }
{}
