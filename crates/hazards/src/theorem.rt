// What is proved of document 02's changes, as contracts of functions that do nothing, so that the check's log names them. Change 4, "Wear
// that grows in a straight line": that one f64 alone is nearest to a root. Change 6, "Show which piece of the rate curve struck": that the
// piece number is that of the piece used, and 0 where none is. Change 8, "The list's order must not matter": its five sentences, and that
// no order is left out. Change 11, "What rate would fail on that day?": that one answer alone is right, and that the rates meant are those
// with which a cause waits so long.
ghost use Rattle.hazards.specs.ListOrder.{AnyOrder, EveryOrder, CensoredAnswer, UncensoredWinner, EmptyList, NoEvent};
ghost use Rattle.hazards.specs.PieceUsed.{PieceUsed, OnePiece, PieceZero};
ghost use Rattle.hazards.specs.RateForWait.{OneAnswer, ConstantHazard};
ghost use Rattle.hazards.specs.Roots.{OneNearest};

// Of every f64 above 0 that is not infinite one f64 is the nearest to its root, and that is the one that nearest_root returns.
pub fn one_nearest_root()
    ensures { OneNearest }
{}

// The piece number of a piecewise hazard's finite wait is the index of the pair used, or the number of pairs for the trailing rate.
pub fn piece_used()
    ensures { PieceUsed }
{}

// Of one w from one start on no two pieces are the one used.
pub fn one_piece()
    ensures { OnePiece }
{}

// It is 0 for all other kinds, for a w at most 0 and where there is no finite wait.
pub fn piece_zero()
    ensures { PieceZero }
{}

// Two orders of the same records, all causes different, give the same answer and the same position.
pub fn any_order()
    ensures { AnyOrder }
{}

// No order of records with all causes different is left out.
pub fn every_order()
    ensures { EveryOrder }
{}

// A censored answer leaves no candidate whose age + wait is below the censor age.
pub fn censored_answer()
    ensures { CensoredAnswer }
{}

// An uncensored winner has no rival that is earlier, or as early and preferred, and isn't after a censor age above the current one.
pub fn uncensored_winner()
    ensures { UncensoredWinner }
{}

// An empty list answers no event.
pub fn empty_list()
    ensures { EmptyList }
{}

// Otherwise no event is answered only when there is no candidate and no such censor age.
pub fn no_event()
    ensures { NoEvent }
{}

// To a threshold and a wait one answer alone is right.
pub fn one_rate()
    ensures { OneAnswer }
{}

// The rates that give a wait are the constant rates with which the cumulative hazard's inversion answers that wait.
pub fn constant_hazard()
    ensures { ConstantHazard }
{}
