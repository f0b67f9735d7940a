//! Laws about thickness: a point has one, a picture has one list of them, it is no less than the distance, and it is the greatest ball.
//! They speak of the definitions alone, and do nothing when the program runs.
ghost use Rattle.shape_thickness.specs.Laws.{OneThickness, OneList, NoThinner, GreatestAreThicknesses, GreatestSquares};

/// A point has one thickness.
pub fn one_thickness()
    ensures { OneThickness }
{}

/// A picture has one list of thicknesses.
pub fn one_list()
    ensures { OneList }
{}

/// The thickness of an object point is no less than its squared distance to the background.
pub fn no_thinner()
    ensures { NoThinner }
{}

/// Where the squares are distances to the background, the greatest ones are the thicknesses; and there is one list of them.
pub fn greatest_are_thicknesses()
    ensures thicknesses { GreatestAreThicknesses }
    ensures squares { GreatestSquares }
{}
