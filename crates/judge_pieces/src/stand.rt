//! Where the lines stand: how many contours were begun, and which of the pieces of the last of them were given.
//! Only numbers are counted here; what a line says of points belongs elsewhere.
ghost use Rattle.std.specs.Prelude.{◌≡◌, ◌<◌, ◌-◌, ◌↔◌, ◌^◌, IsTrue};
ghost use Rattle.piece_terms.specs.SplitLines.{at_start, IsFull, AreNextPlaces, IsNextAxis};
ghost use Rattle.judge_pieces.specs.PieceState.{standing_of, with_chain, with_piece, with_gap};

/// Where the lines stand.
#[derive(Clone, Copy)]
pub struct Stand {
    /// How many contours were begun; and of the last of them:
    pub begun: u32,
    /// how many pieces its line gives,
    pub declared: u32,
    /// how many it was given,
    pub pieces: u32,
    /// the first place of the last of these,
    pub first: u32,
    /// the place after its last one,
    pub next: u32,
    /// and how many gap lines came since.
    pub gaps: u32,
}

impl Stand {
    /// Before any line.
    pub fn start() -> Stand
        ensures { standing_of result ≡ at_start }
    {
        Stand {
            begun: 0,
            declared: 0,
            pieces: 0,
            first: 0,
            next: 0,
            gaps: 0,
        }
    }

    /// Whether no contour is begun and without all its pieces.
    pub fn is_full(self) -> bool
        ensures { IsTrue result ↔ IsFull (standing_of self) }
    {
        self.pieces == self.declared
    }

    /// Whether these are the places of the next piece, in a contour of `n` points.
    pub fn come_next(self, n: u32, first: u32, last: u32) -> bool
        ensures { IsTrue result ↔ AreNextPlaces n (standing_of self) first last }
    {
        if self.pieces >= self.declared || self.pieces > 0 && self.gaps != 2 {
            return false;
        }
        if first != self.next || last < first || last >= n {
            return false;
        }
        if self.pieces + 1 == self.declared {
            last + 1 == n
        } else {
            last + 1 != n
        }
    }

    /// Whether a gap line of this axis comes next.
    pub fn wants(self, axis: u32) -> bool
        ensures { IsTrue result ↔ IsNextAxis (standing_of self) axis }
    {
        self.pieces > 0 && self.pieces < self.declared && self.gaps < 2 && axis == self.gaps
    }

    /// After a contour of so many pieces was begun.
    pub fn with_chain(self, pieces: u32) -> Stand
        requires { self.begun < 2 ^ 32 - 1 }
        ensures { standing_of result ≡ with_chain (standing_of self) pieces }
    {
        Stand {
            begun: self.begun + 1,
            declared: pieces,
            pieces: 0,
            first: 0,
            next: 0,
            gaps: 0,
        }
    }

    /// After a piece.
    pub fn with_piece(self, first: u32, last: u32) -> Stand
        requires more { self.pieces < self.declared }
        requires last { last < 2 ^ 32 - 1 }
        ensures { standing_of result ≡ with_piece (standing_of self) first last }
    {
        Stand {
            pieces: self.pieces + 1,
            first,
            next: last + 1,
            gaps: 0,
            ..self
        }
    }

    /// After a gap line.
    pub fn with_gap(self) -> Stand
        requires { self.gaps < 2 }
        ensures { standing_of result ≡ with_gap (standing_of self) }
    {
        Stand {
            gaps: self.gaps + 1,
            ..self
        }
    }
}
