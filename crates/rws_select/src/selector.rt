//! The stored scoring function, and the choice that rests on it.
//!
//! A `Selector` is made by `Selector::new` alone, whose condition says what its function answers.
ghost use Rattle.std.specs.Prelude.{◌≡◌, List, Option, [], ◌∷◌, ◌++◌, length, MatchOption};
ghost use Rattle.rws_select.specs.declared.selector.Load.{Load};
ghost use Rattle.rws_select.specs.Choice.{IsScorer, HasScorer, HasNone, IsChoice, choice_of};
ghost use Rattle.rws_select.specs.Scored.{IsBest};

/// What a worker has open to one server.
#[derive(Clone, Copy, Debug, PartialEq, Eq)]
pub struct Load {
    /// Links on which a command awaits its reply.
    pub pending: u16,
    /// Links that are open or opening.
    pub links: u16,
}

/// A scoring function that callers have shown to answer `pending * 65536 + links` for every load.
#[derive(Drop)]
pub struct Selector<F> {
    /// The scoring function.
    score: F,
}

/// A candidate with its score.
#[derive(Clone, Copy)]
struct Scored {
    /// The server's index.
    place: u8,
    /// What the scoring function answered for its load.
    score: u64,
}

impl<F: Fn(&Load) -> u64 + Sync> Selector<F> {
    /// Keeps the scoring function.
    pub fn new(score: F) -> Selector<F>
        requires { IsScorer F.Fn score }
        ensures { HasScorer F.Fn result }
    {
        Selector { score }
    }

    /// The index of the candidate of least score, the lowest index at a tie. None exactly where there is no
    /// candidate.
    pub fn choose(&self, candidates: &[Option<Load>; 7]) -> Option<u8>
        requires { HasScorer F.Fn self.now }
        ensures choice { MatchOption result (HasNone candidates.now) (λ place. IsChoice candidates.now place) }
        ensures function { result ≡ choice_of candidates.now }
    {
        let mut best = None;
        for place in 0..7 {
            let next = candidates[usize::from(place)];
            best = self.better(best, place, next);
        }
        Some(best?.place)
    }

    /// The one of least score so far, or the next server, where that is a candidate with a lower score.
    fn better(&self, best: Option<Scored>, place: u8, next: Option<Load>) -> Option<Scored>
        requires { HasScorer F.Fn self.now }
        ensures { (seen : List (Option Load)) → length seen ≡ place → IsBest seen best → IsBest (seen ++ next ∷ []) result }
    {
        let Some(load) = next else {
            return best;
        };
        let score = (self.score)(&load);
        let found = Scored { place, score };
        let Some(least) = best else {
            return Some(found);
        };
        if found.score < least.score {
            Some(found)
        } else {
            best
        }
    }
}
