// How building ends when all faces stand: by the verdict on the whole the tables are finished, or their counted rows made zero.
// Not here: the verdict itself (`building_whole`), what comes before (`building`).
// Contract: `conclude`. Definition: `specs/Concluding.antt`.
#![tactic(auto)]

ghost use Rattle.std.specs.Prelude.{◌≡◌, ◌*◌, ◌/◌, ◌≤◌, length};
ghost use Rattle.tables.specs.Layout.{position_width, point_width, edge_width, face_width};
ghost use Rattle.tables.specs.Mesh.{mesh_of};
ghost use Rattle.built_meshes.specs.Building.{BuildOutcome};
ghost use Rattle.built_meshes.specs.Whole.{whole_verdict};
ghost use Rattle.building_ends.specs.Concluding.{concluded};

use building_whole::whole::{mark_points, whole_verdict};
use built_meshes::Ground;
use counted_rows::zero_rows;
use tables::{Counts, POSITION_WIDTH, copy_first, index};

// The verdict on the whole when k edges stand, and the tables by it: finished, or their counted rows made zero.
pub fn conclude(
    coordinates: &[f64],
    positions: &mut [f64],
    points: &mut [u32],
    edges: &mut [u32],
    intervals: &mut [f64],
    faces: &mut [u32],
    nl: usize,
    nf: usize,
    k: u32,
) -> Result<Counts, Ground>
    requires position_width_in_bounds { length coordinates.now / position_width * position_width ≤ length positions.old }
    requires point_width_in_bounds { length coordinates.now / position_width * point_width ≤ length points.old }
    requires edge_width_in_bounds { nl * edge_width ≤ length edges.old }
    requires nl_in_bounds { nl ≤ length intervals.old }
    requires face_width_in_bounds { nf * face_width ≤ length faces.old }
    requires k_le_nl { k ≤ nl }
    ensures { ◌≡◌ {A = BuildOutcome} (record {
      answer = result;
      tables = mesh_of positions.new points.new
          edges.new intervals.new faces.new;
    }) (concluded coordinates.now
        (length coordinates.now / position_width) nl nf
        (mesh_of positions.old points.old edges.old intervals.old faces.old) k
        (whole_verdict
        (mesh_of positions.old points.old edges.old intervals.old faces.old)
        (length coordinates.now / position_width) k)) }
{
    let np = coordinates.len() / POSITION_WIDTH;
    let ne = index(k);
    match whole_verdict(points, edges, np, ne) {
        Ok(()) => {
            copy_first(coordinates, positions, np * POSITION_WIDTH);
            mark_points(points, np);
            Ok(Counts {
                points: np,
                edges: ne,
                faces: nf,
            })
        }
        Err(g) => {
            zero_rows(
                Counts {
                    points: np,
                    edges: nl,
                    faces: nf,
                },
                positions,
                points,
                edges,
                intervals,
                faces,
            );
            Err(g)
        }
    }
}
