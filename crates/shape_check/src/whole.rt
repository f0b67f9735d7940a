//! The rows of judges of whole reports, one for each dimension.
//! A further section is one more word in a type and one more line in its `begin`; another dimension is another row.
ghost use Rattle.std.specs.Prelude.{◌≡◌, ◌<◌, ◌^◌, ℕ, false, List, [], IfOk, refl};
ghost use Rattle.shape_terms.specs.Parts.{Counts};
ghost use Rattle.shape_terms.specs.Thinning.{Rule};
ghost use Rattle.judge_field.specs.FieldState as Field;
ghost use Rattle.shape_check.specs.EventStanding as Thin;
ghost use Rattle.shape_check.specs.Followed.{Thins};

use crate::counts::{CountsJudge, PictureCounts};
use crate::distances::distances_of;
use crate::end::EndJudge;
use crate::events::ThinJudge;
use crate::judges::Row;
use crate::outline::{NoContours, NoFaces};
use crate::then::{Then, before};
use crate::thinned::ThinnedJudge;
use judge_field::FieldJudge;
use judge_outline::{CoverJudge, PlaneJudge};
use shape_adj::parts;
use shape_grid::Grid;
use shape_space::{NoMemory, P2, P3};
use shape_topo::SimpleMask;
use std::alloc::Global;

// The judges that every row has: of the counts, of the nearest points and of the thinning.
#[derive(Drop)]
struct Common<P: SimpleMask> {
    counts: CountsJudge,
    field: FieldJudge<P>,
    thinned: ThinnedJudge<P>,
}

// The judges of a picture that have taken no line.
fn wait_for<P: SimpleMask>(alloc: Global, grid: &Grid<P>) -> Result<Common<P>, NoMemory>
    ensures counts { IfOk result (λ c. Counts grid.now c.counts.counts.points
        c.counts.counts.object c.counts.counts.background) }
    ensures counts_wait { IfOk result (λ c. c.counts.taken ≡ false) }
    ensures picture { IfOk result (λ c. c.field.picture ≡ grid.now) }
    ensures field { IfOk result (λ c. Field.StandsFor c.field []) }
    ensures field_room { IfOk result (λ c. Field.room_of c.field < 2 ^ 32) }
    ensures thinned { IfOk result (λ c. (by : Rule) (now : List ℕ) → Thins grid.now by
        (λ events now. Thin.StandsFor by grid.now events now c.thinned.events) c.thinned.begun
        c.thinned.kept c.thinned.object c.thinned.background now []) }
    ensures thinned_waits { IfOk result (λ c. c.thinned.kept ≡ false) }
    ensures thinned_room { IfOk result (λ c. Thin.room_of c.thinned.events < 2 ^ 32) }
{
    grid.is_picture();
    let parts = parts(alloc, grid)?;
    let field = FieldJudge::new(alloc, grid)?;
    let distances = distances_of(alloc, field.scans())?;
    let thinned = ThinnedJudge {
        events: ThinJudge::new(alloc, grid, distances)?,
        begun: false,
        object: parts.object,
        background: parts.background,
        kept: false,
    };
    let counts = CountsJudge {
        counts: PictureCounts {
            points: grid.count(),
            object: parts.object,
            background: parts.background,
        },
        taken: false,
    };
    Ok(Common {
        counts,
        field,
        thinned,
    })
}

/// The judges of a flat picture, behind the heading.
pub type Flat = Then<
    CountsJudge,
    Then<FieldJudge<P2>, Then<CoverJudge, Then<NoFaces, Then<ThinnedJudge<P2>, EndJudge>>>>,
>;

impl Row<P2> for Flat {
    fn begin(alloc: Global, grid: &Grid<P2>, number: u8) -> Result<Flat, NoMemory> {
        let common = wait_for(alloc, grid)?;
        let cover = CoverJudge::new(alloc, grid, number)?;
        grid.is_picture();
        let row = before::<P2, _, _>(common.thinned, EndJudge { taken: false });
        let row = before::<P2, _, _>(NoFaces, row);
        let row = before::<P2, _, _>(cover, row);
        let row = before::<P2, _, _>(common.field, row);
        let row = before::<P2, _, _>(common.counts, row);
        Ok(row)
    }

    ghost first = { refl };
}

/// The judges of a volume, behind the heading.
pub type Solid = Then<
    CountsJudge,
    Then<FieldJudge<P3>, Then<NoContours, Then<PlaneJudge, Then<ThinnedJudge<P3>, EndJudge>>>>,
>;

impl Row<P3> for Solid {
    fn begin(alloc: Global, grid: &Grid<P3>, _number: u8) -> Result<Solid, NoMemory> {
        let common = wait_for(alloc, grid)?;
        let plane = PlaneJudge::new(alloc, grid)?;
        grid.is_picture();
        let row = before::<P3, _, _>(common.thinned, EndJudge { taken: false });
        let row = before::<P3, _, _>(plane, row);
        let row = before::<P3, _, _>(NoContours, row);
        let row = before::<P3, _, _>(common.field, row);
        let row = before::<P3, _, _>(common.counts, row);
        Ok(row)
    }

    ghost first = { refl };
}
