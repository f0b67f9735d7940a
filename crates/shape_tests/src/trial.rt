//! The pictures of seed 0 that were worked out by hand.
//! A further seed is one more picture.
use crate::shared::at;
use shape_grid::{Grid, make_picture};
use shape_space::{P2, P3};
use std::test::Fail;

#[test]
fn small_pictures(rt: HostRuntime) -> Result<(), Fail> {
    let flat: Grid<P2> = make_picture(rt.alloc(), 0, 4)?;
    assert!(rt;
        flat.count() == 4
            && flat.has(at(1, 0))
            && flat.has(at(2, 0))
            && flat.has(at(3, 0))
            && flat.has(at(2, 1))
    );
    let solid: Grid<P3> = make_picture(rt.alloc(), 0, 2)?;
    let o = P3 { x: 0, y: 0, z: 0 };
    assert!(rt;
        solid.count() == 4
            && solid.has(o)
            && solid.has(P3 { x: 1, ..o })
            && solid.has(P3 { y: 1, ..o })
            && solid.has(P3 { z: 1, ..o })
    );
    Ok(())
}
