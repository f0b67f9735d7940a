//! Distances, scalar products and the order of points, with values counted by hand. Boxes stand in `boxes.cases` of `run_cases`.
//! A further pair of points is one more assertion.
use shape_space::{P2, P3, Point, dot, squared_distance};

#[test]
fn distances_and_order_in_the_plane(rt: HostRuntime) {
    let p = P2 { x: 2, y: 1 };
    let q = P2 { x: 0, y: 1 };
    assert!(rt; squared_distance(p, P2 { x: -1, y: 0 }) == 10 && dot(&[3, -5, 7], p) == 1);
    assert!(rt; q < p);
}

#[test]
fn distances_and_order_in_space(rt: HostRuntime) {
    let p = P3 { x: 2, y: 0, z: 3 };
    let q = P3 { x: 0, y: 1, z: 1 };
    assert!(rt; squared_distance(p, P3 { x: -1, y: 2, z: 4 }) == 14 && dot(&[3, -5, 7], p) == 27);
    assert!(rt; q < p && q.with(2, 4) > p);
    assert!(rt; P3::origin().with(1, 1) == P3 { x: 0, y: 1, z: 0 });
}
