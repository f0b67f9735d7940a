//! What the pages of help say, a constant each.
//! Only words for a reader: a page is changed here alone.

/// All forms of the program's words.
pub(crate) const FORMS: &str =
    "shape measures a binary picture or volume, with evidence, and checks such measures.

  shape analyse pbm FILE RULE              report of a flat picture
  shape analyse raw X Y Z FILE RULE        report of a volume with these sides
  shape check pbm FILE REPORT              yes, or no and the first bad line
  shape check raw X Y Z FILE REPORT
  shape edges|pieces pbm FILE              reports of other kinds, with their checks
  shape checkedges|checkpieces pbm FILE REPORT
  shape balls pbm FILE                     also: balls raw X Y Z FILE
  shape checkballs pbm FILE REPORT         also: checkballs raw X Y Z FILE REPORT
  shape draw [labels|contours|measures] REPORT
                                           a drawing as SVG
  shape draw REPORT FURTHER                with edges, pieces or balls over it
  shape measure [moments] [thickness] [spacing X Y Z] REPORT
                                           a table as CSV, a row for each object
  shape measure whole REPORT               a row for the whole object
  shape mask skeleton|object|distances|squares|thickness REPORT
                                           a raw picture or volume
  shape trial pbm|raw SEED SIDE            numbers of a picture made of a seed

RULE says which ends the thinning keeps: none, curve or few.
More of a word: shape help analyse|check|edges|pieces|balls|draw|measure|mask|trial,
or --help behind the word.
Exit status: 0 done or yes, 1 no, 2 words of no form, 3 no picture or no report,
4 a read failed, 5 a write failed, 6 no memory. The manual: man shape.
";

/// The version of the program and of what it writes.
pub(crate) const VERSION: &str =
    "shape 0.1, reports as docs/REPORT.md has them, proved with rattle-kit-13f
";

/// Reports of an analysis.
pub(crate) const ANALYSE: &str = "shape analyse pbm FILE RULE
shape analyse raw X Y Z FILE RULE

Writes the report of a picture: the counts of points, pieces and holes; for each object
point a nearest background point and the squared distance; of a flat picture the contours
with their maximal straight segments, of a volume its six faces as patches of planes; and
an ordered thinning. Each claim has its evidence beside it.

FILE is a PBM, plain or raw, in which black is the object, or raw bytes of a volume, x
fastest, in which each byte but 0 is the object.
RULE says which ends the thinning keeps: none, those of a curve, or few (two at most).

Example: shape analyse pbm pictures/cross.pbm curve > cross.report
";

/// Checks of a report.
pub(crate) const CHECK: &str = "shape check pbm FILE REPORT
shape check raw X Y Z FILE REPORT
shape checkedges|checkpieces|checkballs pbm FILE REPORT
shape checkballs raw X Y Z FILE REPORT

Writes yes where the report holds of the picture, else no and the number of the first bad
line. It takes the picture and the report alone, whoever wrote them.

Example: shape check pbm pictures/cross.pbm cross.report
";

/// Reports of edges.
pub(crate) const EDGES: &str = "shape edges pbm FILE
shape checkedges pbm FILE REPORT

Writes the maximal runs on standard lines of each border, as it goes along the cracks
between pixels: what corners, directions and lengths of a border are measured by.
";

/// Reports of pieces.
pub(crate) const PIECES: &str = "shape pieces pbm FILE
shape checkpieces pbm FILE REPORT

Writes each contour as the fewest digital straight pieces, with the evidence that there
are no fewer.
";

/// Reports of balls.
pub(crate) const BALLS: &str = "shape balls pbm FILE
shape balls raw X Y Z FILE
shape checkballs pbm FILE REPORT
shape checkballs raw X Y Z FILE REPORT

Writes the object as a union of balls of its distance map of which none is needless, the
reduced medial axis.
";

/// Drawings.
pub(crate) const DRAW: &str = "shape draw [labels|contours|measures] REPORT
shape draw REPORT FURTHER

Writes an SVG of what a report claims: points, contours and the points left. With labels
each object has its number, that of its row in the table, and with measures its axes and
Feret diameters. With contours the contours stand alone, for large pictures. FURTHER is a report of edges, pieces or balls of the same picture.
";

/// Tables.
pub(crate) const MEASURE: &str = "shape measure [moments] [thickness] [spacing X Y Z] REPORT
shape measure whole REPORT

Writes a table as CSV, a row for each object: area, box, centroid, radius, points left and
their ends and junctions, and what docs/MEASURING.md has for pictures and for volumes.
With moments its second moments and the axes of their ellipse, with thickness the local
thickness. With spacing volumes, surfaces and Feret diameters are in the unit of the sides of
a voxel, which are whole numbers. With whole one row: points, pieces, holes or pores,
tunnels, Euler number.

Lengths are in pixels or voxels. The table is of what the report claims: check it first.
";

/// Masks.
pub(crate) const MASK: &str = "shape mask skeleton|object REPORT
shape mask distances|squares|thickness REPORT

Writes the points left or the object as a raw PBM, of a volume as a byte for each voxel;
or distances in hundredths as a raw PGM of 16 bits, of a volume as two bytes for each
voxel, lower first; squares of distances as four bytes; thickness as distances are.
";

/// Trials.
pub(crate) const TRIAL: &str = "shape trial pbm SEED SIDE
shape trial raw SEED SIDE

Makes a picture or volume of a seed, analyses it, checks the analysis, and writes its
numbers in one line, which is the same on every machine.
";
