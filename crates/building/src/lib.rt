// Building: lists of coordinates, side lengths, first points, listed points and intervals, of either version, become a mesh in the lent tables, or meet the first ground
// that holds (document 01, "Building" and "Grounds"; document 02, §4).
// Carries over `try_new` of t_nurcc/mod.rs.
// Not here: the end, once all faces stand (`building_ends`).
// Contract: `build`. Definitions: `Building` of `built_meshes`; `specs/Beginning.antt`.
#![tactic(auto)]

ghost use Rattle.std.specs.Prelude.{◌≡◌, ℕ, ◌+◌, ◌/◌, ◌≤◌, ◌<◌, length, get_or};
ghost use Rattle.tables.specs.Mesh.{Mesh, mesh_of};
ghost use Rattle.built_meshes.specs.Lists.{general_limits, rows_of};
ghost use Rattle.built_meshes.specs.Answers.{built_numbers};
ghost use Rattle.built_meshes.specs.Building.{BuildOutcome, build};
ghost use Rattle.tables.specs.Counted.{zeroed_rows};
ghost use Rattle.built_meshes.specs.Lent.{lists_of};
ghost use Rattle.building_tests.specs.Lent.{limits_of};
ghost use Rattle.edge_buckets.specs.Buckets.{buckets};
ghost use Rattle.building.specs.Beginning.{answered_from, Begun, Zeroed};

use building_ends::conclude;
use building_faces::enter_faces;
use building_lists::counts_fit;
use building_tests::{Bounds, MOST_LISTED};
use built_meshes::{Ground, LentLists};
use counted_rows::{rows_for, zero_rows};
use edge_buckets::BUCKETS;
use list_numbers::numbers_fit;
use tables::{Counts, MeshTables, POSITION_WIDTH};

// The words of the chains: a link for each bucket, and one for each edge.
const CHAIN: usize = BUCKETS + MOST_LISTED;

// Builds in tables whose counted rows are zero, with chains of no edge, from lists that meet no ground up to 4.
fn build_zeroed(
    lists: &LentLists,
    positions: &mut [f64],
    points: &mut [u32],
    edges: &mut [u32],
    intervals: &mut [f64],
    faces: &mut [u32],
    chain: &mut [u32],
) -> Result<Counts, Ground>
    requires zeroed { Zeroed (lists_of lists.now) (mesh_of positions.old points.old edges.old intervals.old faces.old) }
    requires listed_in_bounds { buckets + general_limits.listed ≤ length chain.old }
    requires by_index { (b : ℕ) → b < buckets → get_or chain.old b 0 ≡ 0 }
    ensures { (m : Mesh) → Begun (lists_of lists.now) m →
        (mesh_of positions.old points.old edges.old intervals.old faces.old)
        ≡ zeroed_rows (rows_of (lists_of lists.now)) m →
        ◌≡◌ {A = BuildOutcome} (record {
          answer = result;
          tables = mesh_of positions.new points.new
              edges.new intervals.new faces.new;
        })
        (answered_from (lists_of lists.now) m) }
{
    let np = lists.coordinates.len() / POSITION_WIDTH;
    let nl = lists.listed.len();
    let nf = lists.sides.len() / 4;
    match enter_faces(
        lists.version,
        lists.sides,
        lists.firsts,
        lists.listed,
        lists.beside,
        points,
        edges,
        intervals,
        faces,
        chain,
        np,
    ) {
        Ok(k) => conclude(
            lists.coordinates,
            positions,
            points,
            edges,
            intervals,
            faces,
            nl,
            nf,
            k,
        ),
        Err(g) => {
            zero_rows(
                Counts {
                    points: np,
                    edges: nl,
                    faces: nf,
                },
                positions,
                points,
                edges,
                intervals,
                faces,
            );
            Err(g)
        }
    }
}

// Builds from lists that meet no ground up to 4.
fn build_begun(
    lists: &LentLists,
    positions: &mut [f64],
    points: &mut [u32],
    edges: &mut [u32],
    intervals: &mut [f64],
    faces: &mut [u32],
) -> Result<Counts, Ground>
    requires { Begun (lists_of lists.now) (mesh_of positions.old points.old edges.old intervals.old faces.old) }
    ensures { ◌≡◌ {A = BuildOutcome} (record {
      answer = result;
      tables = mesh_of positions.new points.new
          edges.new intervals.new faces.new;
    })
        (answered_from (lists_of lists.now)
        (mesh_of positions.old points.old edges.old intervals.old faces.old)) }
{
    zero_rows(
        Counts {
            points: lists.coordinates.len() / POSITION_WIDTH,
            edges: lists.listed.len(),
            faces: lists.sides.len() / 4,
        },
        positions,
        points,
        edges,
        intervals,
        faces,
    );
    let mut chain = [0u32; CHAIN];
    build_zeroed(
        lists, positions, points, edges, intervals, faces, &mut chain,
    )
}

// Builds a mesh from lists of any content and lengths in the lent tables, within the bounds. Version 1 does not look at the first points.
pub fn build(
    lists: &LentLists,
    positions: &mut [f64],
    points: &mut [u32],
    edges: &mut [u32],
    intervals: &mut [f64],
    faces: &mut [u32],
    bounds: Bounds,
) -> Result<Counts, Ground>
    ensures fact { ◌≡◌ {A = BuildOutcome} (record {
      answer = result;
      tables = mesh_of positions.new points.new
          edges.new intervals.new faces.new;
    }) (build (limits_of bounds)
        (lists_of lists.now)
        (mesh_of positions.old points.old edges.old intervals.old faces.old)) }
    ensures result_value { built_numbers result
        ≡ built_numbers (build (limits_of bounds)
        (lists_of lists.now)
        (mesh_of positions.old points.old edges.old intervals.old faces.old)).answer }
{
    if !counts_fit(lists, bounds) {
        return Err(Ground::OverCounts);
    }
    if !numbers_fit(lists.coordinates, lists.beside) {
        return Err(Ground::UnfitNumber);
    }
    let tables = MeshTables {
        positions,
        points,
        edges,
        intervals,
        faces,
    };
    if !rows_for(
        Counts {
            points: lists.coordinates.len() / POSITION_WIDTH,
            edges: lists.listed.len(),
            faces: lists.sides.len() / 4,
        },
        &tables,
    ) {
        return Err(Ground::FewRows);
    }
    build_begun(lists, positions, points, edges, intervals, faces)
}
