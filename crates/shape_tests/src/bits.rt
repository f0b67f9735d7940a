//! The least number of a set of bits, far beyond the first word of each level, and after the numbers below it are gone.
//! Three values of a row of bits at once, at all places of its words. How a thinning fills such bits belongs elsewhere.
use shape_grid::{Bits, Numbers};
use std::test::Fail;

#[test]
fn the_least_of_far_numbers(rt: HostRuntime) -> Result<(), Fail> {
    let mut set = Numbers::new(rt.alloc(), 300000)?;
    set.insert(270000);
    assert!(rt; set.least() == Some(270000));
    set.insert(5000);
    assert!(rt; set.least() == Some(5000));
    set.remove(5000);
    assert!(rt; set.least() == Some(270000));
    set.remove(270000);
    assert!(rt; set.least().is_none());
    Ok(())
}

#[test]
fn three_values_at_once(rt: HostRuntime) -> Result<(), Fail> {
    let mut row = Bits::new(rt.alloc(), 200)?;
    for i in 0..200 {
        if i * i % 7 < 3 {
            row.set(i);
        }
    }
    for i in 0..198 {
        let three = row.three(i);
        for b in 0..3 {
            assert!(rt; ((three >> b) & 1 == 1) == row.get(i + b));
        }
        assert!(rt; three < 8);
    }
    Ok(())
}
