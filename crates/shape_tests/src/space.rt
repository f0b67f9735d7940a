//! A row of four cells with its envelope, and fractions, with values counted by hand. Boxes stand in `boxes`.
//! The row counts its steps in a ledger of its own.
ghost use Rattle.std.specs.Prelude.{◌≡◌};

use shape_envelope::envelope;
use shape_space::{Frac, Row, Steps};
use std::alloc::Global;
use std::marker::Brand;
use std::sync::ledger::{Blank, Ledger};
use std::test::Fail;

// What is found of the cells 4, empty, 0, 9, and of a row of empty cells.
#[derive(Drop)]
struct Cells {
    // the first better places of the first and third, and of the third and last cell
    early: i64,
    late: i64,
    // whether the second and the third are filled
    second: bool,
    third: bool,
    // whether the cells have an envelope, and the empty ones, and that envelope
    some: bool,
    none: bool,
    envelope: Vec<u32>,
}

fn cells_found<L: Ledger>(alloc: Global, blank: Blank) -> Result<Cells, Fail>
    requires name { blank.name ≡ L.name }
    requires parts { blank.parts ≡ L.parts }
    requires whole { blank.parts ≡ 1 }
{
    let mut steps = Steps::<L>::new(blank);
    let mut row = Row::new(alloc, 4)?;
    row.set(0, Some(4));
    row.set(2, Some(0));
    row.set(3, Some(9));
    let second = row.filled(1, &mut steps);
    let third = row.filled(2, &mut steps);
    let early = row.first_better(0, 2, &mut steps);
    let late = row.first_better(2, 3, &mut steps);
    let empty = Row::new(alloc, 4)?;
    let mut out = vec![in alloc; 7u32; row.len() as usize]?;
    let mut other = vec![in alloc; 7u32; 4]?;
    let some = envelope(alloc, &row, &mut out, &mut steps)?;
    let none = envelope(alloc, &empty, &mut other, &mut steps)?;
    Ok(Cells {
        early,
        late,
        second,
        third,
        some,
        none,
        envelope: out,
    })
}

#[test]
fn four_cells(rt: HostRuntime) -> Result<(), Fail> {
    let found = cells_found::<Brand>(rt.alloc(), Blank::new(1))?;
    assert!(rt; found.early == 0 && found.late == 7);
    assert!(rt; found.third && !found.second);
    assert!(rt; found.some && !found.none);
    let first = found.envelope.get(0).copied();
    assert!(rt; first == Some(0) || first == Some(2));
    for i in 1..4 {
        assert!(rt; found.envelope.get(i).copied() == Some(2));
    }
    Ok(())
}

#[test]
fn fractions(rt: HostRuntime) {
    let third = Frac { num: 1, den: 3 };
    let half = Frac { num: 1, den: 2 };
    assert!(rt; third.less(&half) && !half.less(&third) && !half.less(&half));
    let middle = Frac::between(&third, &half);
    assert!(rt; middle.num == 2 && middle.den == 5);
}
