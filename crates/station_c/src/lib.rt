// The library for stations as C functions on pointers and lengths: a static library, whose archive station/library.sh hands on as
// libstation.a. Each function is the one of that name in `station`, with its clauses said again: what it does and answers is said there.
// station/lavyngo.h declares them; station/declarations.py holds its prototypes against this file.
// Not here: anything but the calls.
// Contracts: `lavyngo_build`, `lavyngo_build_2`, `lavyngo_build_text`, `lavyngo_mend_text`, `lavyngo_explain_text`, `lavyngo_audit`,
// `lavyngo_step`, `lavyngo_step_published`, `lavyngo_find_depth`, `lavyngo_write_listing`, `lavyngo_read_listing`, `lavyngo_version`.
#![tactic(auto)]

ghost use Rattle.std.specs.Prelude.{◌≡◌};
ghost use Rattle.built_meshes.specs.Building.{build};
ghost use Rattle.built_meshes.specs.Lists.{general_limits};
ghost use Rattle.building_tests.specs.Lent.{lists, lists_in};
ghost use Rattle.built_meshes.specs.declared.Version.TheVariants.{Two};
ghost use Rattle.building_tests.specs.declared.Bounds.TheVariants.{General};
ghost use Rattle.text_meshes.specs.TextBuilding.{build_text};
ghost use Rattle.tables.specs.Mesh.{mesh_of};
ghost use Rattle.refined_meshes.specs.declared.Edition.TheVariants.{First, Second};
ghost use Rattle.steps.specs.Step.{step};
ghost use Rattle.steps.specs.OneStep.{Binary64};
ghost use Rattle.station.specs.Station.{library_version};
ghost use Rattle.station_building.specs.Told.{BuildingTold, built, text_built};
ghost use Rattle.station_audits.specs.Told.{audited, Finding, found};
ghost use Rattle.mended_texts.specs.Mending.{mend_text};
ghost use Rattle.station_mending.specs.Told.{MendingTold, mended};
ghost use Rattle.station_places.specs.Told.{Explained, explained};
ghost use Rattle.station_steps.specs.Told.{StepTold, stepped};
ghost use Rattle.crossings.specs.Crossings.{find};
ghost use Rattle.station_answers.specs.Answers.{counts_in};
ghost use Rattle.listings.specs.Handing.{write_listing, read_listing};
ghost use Rattle.station_listings.specs.Told.{WritingTold, told_writing, ReadingTold, told_reading};

// Builds a mesh from lists of version 1 in the lent tables.
#[unsafe(no_mangle)]
pub extern "C" fn lavyngo_build(
    coordinates: &[f64],
    sides: &[u32],
    listed: &[u32],
    beside: &[f64],
    positions: &mut [f64],
    points: &mut [u32],
    edges: &mut [u32],
    intervals: &mut [f64],
    faces: &mut [u32],
    counts: &mut [usize; 3],
) -> u32
    ensures { ◌≡◌ {A = BuildingTold}
        (record { answer = result; counts = counts.new; tables = mesh_of positions.new points.new edges.new intervals.new faces.new })
        (built counts.old
        (build general_limits (lists coordinates.now sides.now listed.now beside.now)
        (mesh_of positions.old points.old edges.old intervals.old faces.old))) }
{
    station::lavyngo_build(
        coordinates,
        sides,
        listed,
        beside,
        positions,
        points,
        edges,
        intervals,
        faces,
        counts,
    )
}

// Builds a mesh from lists of version 2 in the lent tables.
#[unsafe(no_mangle)]
pub extern "C" fn lavyngo_build_2(
    coordinates: &[f64],
    sides: &[u32],
    firsts: &[u32],
    listed: &[u32],
    beside: &[f64],
    positions: &mut [f64],
    points: &mut [u32],
    edges: &mut [u32],
    intervals: &mut [f64],
    faces: &mut [u32],
    counts: &mut [usize; 3],
) -> u32
    ensures { ◌≡◌ {A = BuildingTold}
        (record { answer = result; counts = counts.new; tables = mesh_of positions.new points.new edges.new intervals.new faces.new })
        (built counts.old
        (build general_limits
        (lists_in Two coordinates.now sides.now firsts.now listed.now beside.now)
        (mesh_of positions.old points.old edges.old intervals.old faces.old))) }
{
    station::lavyngo_build_2(
        coordinates,
        sides,
        firsts,
        listed,
        beside,
        positions,
        points,
        edges,
        intervals,
        faces,
        counts,
    )
}

// Builds a mesh from a text in the lent tables.
#[unsafe(no_mangle)]
pub extern "C" fn lavyngo_build_text(
    text: &[u8],
    positions: &mut [f64],
    points: &mut [u32],
    edges: &mut [u32],
    intervals: &mut [f64],
    faces: &mut [u32],
    counts: &mut [usize; 3],
) -> u32
    ensures { ◌≡◌ {A = BuildingTold}
        (record { answer = result; counts = counts.new; tables = mesh_of positions.new points.new edges.new intervals.new faces.new })
        (text_built counts.old
        (build_text General text.now
        (mesh_of positions.old points.old edges.old intervals.old faces.old))) }
{
    station::lavyngo_build_text(text, positions, points, edges, intervals, faces, counts)
}

// Mends a text of version 2 in place: whole faces are turned round so that all neighbours run opposite ways.
#[unsafe(no_mangle)]
pub extern "C" fn lavyngo_mend_text(text: &mut [u8]) -> u32
    ensures { ◌≡◌ {A = MendingTold} (record { answer = result; text = text.new }) (mended (mend_text text.old)) }
{
    station::lavyngo_mend_text(text)
}

// Tells what becomes of a text of any bytes, and where it is refused.
#[unsafe(no_mangle)]
pub extern "C" fn lavyngo_explain_text(text: &[u8], place: &mut [usize; 3]) -> u32
    ensures { ◌≡◌ {A = Explained} (record { answer = result; place = place.new }) (explained text.now place.old) }
{
    station::lavyngo_explain_text(text, place)
}

// Whether the tables are a closed mesh with these counts: 0, or 30 if they are not.
#[unsafe(no_mangle)]
pub extern "C" fn lavyngo_audit(
    positions: &[f64],
    points: &[u32],
    edges: &[u32],
    intervals: &[f64],
    faces: &[u32],
    counts: &[usize; 3],
) -> u32
    ensures { result
        ≡ audited
        (mesh_of positions.now points.now edges.now intervals.now faces.now)
        (counts_in counts.now) }
{
    station::lavyngo_audit(positions, points, edges, intervals, faces, counts)
}

// Refines the mesh in the tables once, visiting the faces in the order handed in.
#[unsafe(no_mangle)]
pub extern "C" fn lavyngo_step(
    positions: &mut [f64],
    points: &mut [u32],
    edges: &mut [u32],
    intervals: &mut [f64],
    faces: &mut [u32],
    counts: &mut [usize; 3],
    order: &[u32],
    newpositions: &mut [f64],
    newpoints: &mut [u32],
    newedges: &mut [u32],
    newintervals: &mut [f64],
    newfaces: &mut [u32],
) -> u32
    ensures outcome { ◌≡◌ {A = StepTold}
        (record {
          answer = result;
          counts = counts.new;
          tables = mesh_of positions.new points.new edges.new intervals.new faces.new;
          scratch = mesh_of newpositions.new newpoints.new newedges.new newintervals.new newfaces.new;
        })
        (stepped counts.old
        (step First (mesh_of positions.old points.old edges.old intervals.old faces.old)
        (counts_in counts.old) order.now
        (mesh_of newpositions.old newpoints.old newedges.old newintervals.old newfaces.old))) }
    ensures numbers { Binary64 (counts_in counts.old)
        (mesh_of positions.old points.old edges.old intervals.old faces.old) }
{
    station::lavyngo_step(
        positions,
        points,
        edges,
        intervals,
        faces,
        counts,
        order,
        newpositions,
        newpoints,
        newedges,
        newintervals,
        newfaces,
    )
}

// The same in the second edition, by the published position rule (document 02, §5).
// Beside `lavyngo_step`, which differs in the edition alone: C callers have both names.
#[unsafe(no_mangle)]
pub extern "C" fn lavyngo_step_published(
    positions: &mut [f64],
    points: &mut [u32],
    edges: &mut [u32],
    intervals: &mut [f64],
    faces: &mut [u32],
    counts: &mut [usize; 3],
    order: &[u32],
    newpositions: &mut [f64],
    newpoints: &mut [u32],
    newedges: &mut [u32],
    newintervals: &mut [f64],
    newfaces: &mut [u32],
) -> u32
    ensures outcome { ◌≡◌ {A = StepTold}
        (record {
          answer = result;
          counts = counts.new;
          tables = mesh_of positions.new points.new edges.new intervals.new faces.new;
          scratch = mesh_of newpositions.new newpoints.new newedges.new newintervals.new newfaces.new;
        })
        (stepped counts.old
        (step Second (mesh_of positions.old points.old edges.old intervals.old faces.old)
        (counts_in counts.old) order.now
        (mesh_of newpositions.old newpoints.old newedges.old newintervals.old newfaces.old))) }
    ensures numbers { Binary64 (counts_in counts.old)
        (mesh_of positions.old points.old edges.old intervals.old faces.old) }
{
    station::lavyngo_step_published(
        positions,
        points,
        edges,
        intervals,
        faces,
        counts,
        order,
        newpositions,
        newpoints,
        newedges,
        newintervals,
        newfaces,
    )
}

// Finds the lowest-numbered edge of the mesh that crosses a depth, which is a z coordinate.
#[unsafe(no_mangle)]
pub extern "C" fn lavyngo_find_depth(
    positions: &[f64],
    points: &[u32],
    edges: &[u32],
    intervals: &[f64],
    faces: &[u32],
    counts: &[usize; 3],
    depth: f64,
    edge: &mut [usize; 1],
) -> u32
    ensures { ◌≡◌ {A = Finding} (record { answer = result; edge = edge.new })
        (found edge.old
        (find (mesh_of positions.now points.now edges.now intervals.now faces.now)
        (counts_in counts.now) depth)) }
{
    station::lavyngo_find_depth(
        positions, points, edges, intervals, faces, counts, depth, edge,
    )
}

// Writes the listing of a mesh at the front of the output.
#[unsafe(no_mangle)]
pub extern "C" fn lavyngo_write_listing(
    positions: &[f64],
    points: &[u32],
    edges: &[u32],
    intervals: &[f64],
    faces: &[u32],
    counts: &[usize; 3],
    text: &mut [u8],
    written: &mut usize,
) -> u32
    ensures { ◌≡◌ {A = WritingTold}
        (record { answer = result; count = written.new; text = text.new })
        (told_writing written.old
        (write_listing
        (mesh_of positions.now points.now edges.now intervals.now faces.now)
        (counts_in counts.now)
        text.old)) }
{
    station::lavyngo_write_listing(
        positions, points, edges, intervals, faces, counts, text, written,
    )
}

// Reads a listing into the lent tables.
#[unsafe(no_mangle)]
pub extern "C" fn lavyngo_read_listing(
    text: &[u8],
    positions: &mut [f64],
    points: &mut [u32],
    edges: &mut [u32],
    intervals: &mut [f64],
    faces: &mut [u32],
    counts: &mut [usize; 3],
) -> u32
    ensures { ◌≡◌ {A = ReadingTold}
        (record { answer = result; counts = counts.new; tables = mesh_of positions.new points.new edges.new intervals.new faces.new })
        (told_reading counts.old
        (read_listing text.now
        (mesh_of positions.old points.old edges.old intervals.old faces.old))) }
{
    station::lavyngo_read_listing(text, positions, points, edges, intervals, faces, counts)
}

// The version of the library, which is that of its header.
#[unsafe(no_mangle)]
pub extern "C" fn lavyngo_version() -> u32
    ensures { result ≡ library_version }
{
    station::lavyngo_version()
}
