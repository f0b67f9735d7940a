//! What a ball report that holds means, as a law that callers can cite: what counts is the clause.
//! A further law is one more function with an empty body.
ghost use Rattle.std.specs.Prelude.{ℕ, List};
ghost use Rattle.shape_terms.specs.Pictures.{Picture};
ghost use Rattle.text_terms.specs.Reports.{Holds};
ghost use Rattle.ball_terms.specs.Reports.{ball_report};
ghost use Rattle.ball_terms.specs.Shows.{BallsShow};

/// A report that holds lists balls whose union is exactly the object, and without any one of them it is not.
#[tactic(auto, using(ball_terms::proofs::HoldsShows::holds_shows))]
pub fn balls_holding_shows()
    ensures { (X : Picture) (text : List ℕ) → Holds (ball_report X) text → BallsShow X text }
{}
