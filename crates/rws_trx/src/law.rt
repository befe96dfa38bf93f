//! Laws on states. The functions compute nothing: their contracts are the theorems.
ghost use Rattle.rws_class.specs.declared.class.Class.{Class};
ghost use Rattle.rws_reply.specs.declared.kind.Outcome.{Outcome};
ghost use Rattle.rws_trx.specs.declared.state.TrxState.{TrxState};
ghost use Rattle.rws_trx.specs.declared.transaction.Answer.{Answer};
ghost use Rattle.rws_trx.specs.declared.transaction.Transaction.{Transaction};
ghost use Rattle.rws_trx.specs.Transactions.{at_start, after, IsSound};
ghost use Rattle.rws_trx.specs.OnLinks.{answered, no_transaction, IsPlaced};

/// Only an open transaction is tainted: at the start, and behind each reply.
pub fn only_transactions_are_tainted()
    ensures start { IsSound at_start }
    ensures step { (class : Class) (outcome : Outcome) (state : TrxState) → IsSound state → IsSound (after class outcome state) }
{}

/// A transaction is open exactly where it is open on a link: at the start, and behind each reply.
pub fn transactions_have_a_link()
    ensures start { IsPlaced no_transaction }
    ensures step { (answer : Answer) (t : Transaction) → IsPlaced t → IsPlaced (answered answer t) }
{}
