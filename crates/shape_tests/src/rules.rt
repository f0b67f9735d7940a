//! What the rules of the program are asked that no thinning asks: a point without neighbours, and again after a new beginning; and a word with a blank,
//! which is no name. Their thinnings, the shelf and names stand in `rules.cases`.
use shape_rules::{CurveEnds, EndRule, Facts, FewEnds, Name, NoEnds};

// A point with so many object near neighbours.
const fn facts(neighbours: u8) -> Facts {
    Facts {
        neighbours,
        distance: 1,
    }
}

#[test]
fn rules(rt: HostRuntime) {
    let mut none = NoEnds;
    let mut curve = CurveEnds;
    let mut few = FewEnds::new(1);
    assert!(rt; !none.keep(&facts(1)) && curve.keep(&facts(1)) && !curve.keep(&facts(2)));
    assert!(rt; !few.keep(&facts(0)) && few.keep(&facts(1)) && !few.keep(&facts(1)));
    none.reset();
    curve.reset();
    few.reset();
    assert!(rt; few.keep(&facts(1)));
    assert!(rt; Name::new(b"no ne").is_none());
}
