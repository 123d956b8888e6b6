//! Laws over the definitions alone. Nothing runs here: each function's contract is the law.
ghost use Rattle.nr_model.specs.Laws.{OrderKeepsRows, CountsDecide, OrderedStay, BatchMovesRows, BatchLacksRow, LegalGoesOn, LegalBegins, SendsAreAnswered, NumbersCountCancels, AnswersFitTheirRequests, RowsStayWithinBound};

/// A list in order has the same rows as before, ascending.
pub fn order_keeps_rows()
    ensures { OrderKeepsRows }
{}

/// Ascending lists with the same rows, each as often, are equal.
pub fn counts_decide()
    ensures { CountsDecide }
{}

/// Ascending rows are in order already.
pub fn ordered_stay()
    ensures { OrderedStay }
{}

/// A batch that is applied adds its positive rows and takes its negative ones away.
pub fn batch_moves_rows()
    ensures { BatchMovesRows }
{}

/// A batch lacks a row exactly where it takes some row away more often than it can.
pub fn batch_lacks_row()
    ensures { BatchLacksRow }
{}

/// A history goes on legally exactly with the map's reply.
pub fn legal_goes_on()
    ensures { LegalGoesOn }
{}

/// A beginning of a legal history is legal.
pub fn legal_begins()
    ensures { LegalBegins }
{}

/// Each request that was sent was filled or cancelled once, but the one that is pending.
pub fn sends_are_answered()
    ensures { SendsAreAnswered }
{}

/// A key's ticket number is the first one and one more for each cancel; it never passes the last
/// one.
pub fn numbers_count_cancels()
    ensures { NumbersCountCancels }
{}

/// A request that is sent tells the first ticket number and one more for each cancel before it, and
/// a fill is done by that one alone: an answer to a request that was cancelled never fills.
pub fn answers_fit_their_requests()
    ensures { AnswersFitTheirRequests }
{}

/// Whatever is called, no key has more rows than the bound, where no fill brings more; and each
/// key's rows ascend.
pub fn rows_stay_within_bound()
    ensures { RowsStayWithinBound }
{}
