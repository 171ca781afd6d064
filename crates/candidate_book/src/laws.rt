// A law of merged books, which the contract of a function that does nothing carries. A caller whose proof needs the law
// calls the function.
ghost use Rattle.candidate_book.specs.Laws.{BooksHaveAMerge};

// A law: it does nothing when it runs, and the proof uses what it ensures.
use search_model::order_is_strict;

/// Books that can be merged have a merged list.
pub fn books_have_a_merge()
    ensures { BooksHaveAMerge }
{
    order_is_strict();
}
