// What holds of every book, proposal, quote and rival, whatever the kind of contract. Each function here
// does nothing: its contract is the law, so that the crate is not proved without the law's proof.
ghost use Rattle.matching.specs.Laws.{BestWithinGap, GapNotNegative, WorstAtBreakpoint};
ghost use Rattle.matching.specs.QuoteLaws.{BidBestWithinGap, AskBestWithinGap, QuoteGapsNotNegative};

use instruments::kind::Contract;

// The worst price is 0, the ceiling, or a breakpoint of a filled contract, where these are valid.
pub fn worst_at_breakpoint<C: Contract>()
    ensures { WorstAtBreakpoint C.Contract.meaning }
{}

// No other matching of the same orders has a net, counted as often as the weights add up to, that is
// larger by more than the gap.
pub fn best_within_gap<C: Contract>()
    ensures { BestWithinGap C.Contract.meaning }
{}

// The gap of a matching within the open lots is never below 0.
pub fn gap_not_negative<C: Contract>()
    ensures { GapNotNegative C.Contract.meaning }
{}

// No other matching could pay more for a bid, counted so, by more than the gap.
pub fn bid_best_within_gap<C: Contract>()
    ensures { BidBestWithinGap C.Contract.meaning }
{}

// No other matching could take less for an ask, counted so, by more than the gap.
pub fn ask_best_within_gap<C: Contract>()
    ensures { AskBestWithinGap C.Contract.meaning }
{}

// The gap of a quote beside a matching within the open lots is never below 0.
pub fn quote_gaps_not_negative<C: Contract>()
    ensures { QuoteGapsNotNegative C.Contract.meaning }
{}
