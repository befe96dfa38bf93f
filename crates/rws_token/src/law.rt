//! Laws on the definitions of tokens.

ghost use Rattle.rws_token.specs.Grammar.{EndsByGrammar, CommentsEndByGrammar};
ghost use Rattle.rws_token.specs.Spans.{SpansRise, FaultsLieBehind};

/// Strings and quoted names end where their grammar says.
pub fn enclosed_ends_by_grammar()
    ensures { EndsByGrammar }
{}

/// Comments end at the first `*/` behind their opening.
pub fn comments_end_by_grammar()
    ensures { CommentsEndByGrammar }
{}

/// The tokens of a whole text lie one behind the other inside of it, and none is empty.
pub fn spans_rise()
    ensures { SpansRise }
{}

/// A fault's place lies behind all tokens of its text, and inside of the text.
pub fn faults_lie_behind()
    ensures { FaultsLieBehind }
{}
