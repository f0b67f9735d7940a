//! Euler numbers, the steps that lead out, and surfaces of small pictures, as another program counts them.
//! The pictures are told by hand.
use crate::shared::{at, of_marks};
use measuring::{Minkowski, Spacing, minkowski_numbers, spaced_surfaces, surface, whole_minkowski};
use shape_adj::labels;
use shape_space::P3;
use std::test::Fail;

#[test]
fn a_voxel(rt: HostRuntime) -> Result<(), Fail> {
    let grid = of_marks(rt.alloc(), P3 { x: 3, y: 3, z: 3 }, b".............#")?;
    let whole = whole_minkowski(rt.alloc(), &grid)?;
    assert!(rt;
        whole
            == Minkowski {
                euler: 1,
                x: 1,
                y: 1,
                z: 1,
                xy: 2,
                xz: 2,
                yz: 2,
                xyz: 4,
            }
    );
    assert!(rt; surface(&whole) == 3004);
    Ok(())
}

// A cube of 3 a side without its middle: it has a pore, and its Euler number is 2.
#[test]
fn a_shell(rt: HostRuntime) -> Result<(), Fail> {
    let grid = of_marks(
        rt.alloc(),
        P3 { x: 3, y: 3, z: 3 },
        b"#############.#############",
    )?;
    let whole = whole_minkowski(rt.alloc(), &grid)?;
    assert!(rt;
        whole
            == Minkowski {
                euler: 2,
                x: 10,
                y: 10,
                z: 10,
                xy: 32,
                xz: 32,
                yz: 32,
                xyz: 80,
            }
    );
    assert!(rt; surface(&whole) == 44074);
    Ok(())
}

// A ring, and a point beside it.
#[test]
fn two_objects_of_the_plane(rt: HostRuntime) -> Result<(), Fail> {
    let grid = of_marks(rt.alloc(), at(6, 3), b"###...#.#.#.###...")?;
    let labels = labels(rt.alloc(), &grid)?;
    let numbers = minkowski_numbers(rt.alloc(), grid.sides(), &labels, 2)?;
    let ring = Minkowski {
        euler: 0,
        x: 4,
        y: 4,
        z: 0,
        xy: 12,
        xz: 0,
        yz: 0,
        xyz: 0,
    };
    let point = Minkowski {
        euler: 1,
        x: 1,
        y: 1,
        z: 0,
        xy: 2,
        xz: 0,
        yz: 0,
        xyz: 0,
    };
    assert!(rt; numbers.as_slice() == [ring, point].as_slice());
    let whole = whole_minkowski(rt.alloc(), &grid)?;
    assert!(rt;
        whole
            == Minkowski {
                euler: 1,
                x: 5,
                y: 5,
                z: 0,
                xy: 14,
                xz: 0,
                yz: 0,
                xyz: 0,
            }
    );
    Ok(())
}

// A voxel by sides that are not the same. With the areas of the spherical Voronoi cells of the directions, by SciPy, it has 238.720 and 11.267 in place of these.
#[test]
fn a_voxel_that_is_no_cube(rt: HostRuntime) -> Result<(), Fail> {
    let grid = of_marks(rt.alloc(), P3 { x: 1, y: 1, z: 1 }, b"#")?;
    let labels = labels(rt.alloc(), &grid)?;
    let numbers = minkowski_numbers(rt.alloc(), grid.sides(), &labels, 1)?;
    let slices = Spacing { x: 5, y: 5, z: 20 };
    let surfaces = spaced_surfaces(rt.alloc(), slices, numbers.as_slice())?;
    assert!(rt; surfaces.as_slice() == [238752].as_slice());
    let steps = Spacing { x: 1, y: 2, z: 3 };
    let surfaces = spaced_surfaces(rt.alloc(), steps, numbers.as_slice())?;
    assert!(rt; surfaces.as_slice() == [11267].as_slice());
    Ok(())
}
