//! The laws of asks and ends, which hold of each bundle. None of them has code. `rx` says what is told of patterns.
ghost use Rattle.arz_relation.specs.Laws.{OneEnd, HasEnd, AsManyAsks, OneMore, PrefixFits, SendsKept, SendsLeft, WaitsKept, BudgetSpent, ToldBefore, NeedsNoPattern};

use arz_rx::Patterns;

/// The stated fuel suffices for each list of answers, and more of it gives the same play. Over
/// answers that fit, a valid bundle's execution has an end, where all that it needs of patterns is told.
pub fn l1<P: Patterns>(rx: &P)
    ensures one_end { OneEnd (P.patterns rx.now).told }
    ensures has_end { HasEnd (P.patterns rx.now).told }
{
    let _ = rx;
}

/// One more answer that fits takes the ask that was next, and no ask before it changes: there are as
/// many asks as answers.
pub fn l2<P: Patterns>(rx: &P)
    ensures one_more { OneMore (P.patterns rx.now).told }
    ensures as_many { AsManyAsks (P.patterns rx.now).told }
{
    let _ = rx;
}

/// Each proper prefix of answers that fit ends at the next ask, whose number is one more than the
/// prefix has answers.
pub fn l3<P: Patterns>(rx: &P)
    ensures { PrefixFits (P.patterns rx.now).told }
{
    let _ = rx;
}

/// The budget is kept: no execution sends more requests than its bundle lets be sent. One that ends
/// as Budget has sent just as many, and one that lacks a reply has sent fewer. It waits no more often than it sends.
pub fn budget<P: Patterns>(rx: &P)
    ensures kept { SendsKept (P.patterns rx.now).told }
    ensures left { SendsLeft (P.patterns rx.now).told }
    ensures waits { WaitsKept (P.patterns rx.now).told }
    ensures spent { BudgetSpent (P.patterns rx.now).told }
{
    let _ = rx;
}

/// What the execution needs of patterns over more answers includes what it needs over fewer; where each
/// criterion is a simple one, it needs nothing.
pub fn told<P: Patterns>(rx: &P)
    ensures before { ToldBefore (P.patterns rx.now).told }
    ensures none { NeedsNoPattern (P.patterns rx.now).told }
{
    let _ = rx;
}
