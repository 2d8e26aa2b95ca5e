//! Laws of the book, over every journal: what no single call says.
ghost use Rattle.acct_book.specs.Laws.{AnsweredNeverOver, ReservedIsSumOfOwn, SessionIsSumOfOwn};
ghost use Rattle.acct_book.specs.Alone.{AccountAlone, OneAccountSaysTheSame};

/// Where each outcome of a journal is the one that the book allows after those before it,
/// no more is reserved and debited of an account than was given.
pub fn answered_is_never_over()
    ensures { AnsweredNeverOver }
{}

/// What is reserved on an account is the sum of its reservations over all sessions and groups.
pub fn reserved_is_sum_of_own()
    ensures { ReservedIsSumOfOwn }
{}

/// What is reserved in a session, which a Release ends, is the sum of its reservations over all groups.
pub fn session_is_sum_of_own()
    ensures { SessionIsSumOfOwn }
{}

/// What a book says of an account, its totals, reservations, outcomes and quotes, depends on the operations on that
/// account alone: the journal with these alone says the same, and so do any two books that have the account and
/// these operations in common.
pub fn account_stands_alone()
    ensures alone { AccountAlone }
    ensures same { OneAccountSaysTheSame }
{}
