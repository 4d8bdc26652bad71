// The five tables of a mesh: their rows counted, and the first elements of a table filled and copied.
// Positions: 3 numbers a point. Points: 3 words (valence, start edge, mark). Edges: 8 words (origin, destination, left face,
// right face, then the neighbours LeftCw, LeftAcw, RightCw, RightAcw). Intervals: 1 number an edge. Faces: 5 words (start
// edge, four corners).
// Not here: rows loaded and stored as records by value (`records`), what a closed mesh is (`audited_meshes`).
// The widths of the rows and the places of their words stand here as constants; the first word of a row stands where the row begins.
// Definitions: `specs/Layout.antt`, `specs/Mesh.antt`, `specs/Rows.antt`, `specs/Records.antt`, `specs/Loaded.antt`,
// `specs/Counted.antt`, `specs/Parts.antt`, `specs/Lent.antt`. Laws for callers: `proofs/Laws.antt`.
#![tactic(auto)]

ghost use Rattle.std.specs.Prelude.{◌≡◌, [], ◌≤◌, min, length};
ghost use Rattle.std.specs.Float.{binary64};
ghost use Rattle.std.specs.Float.Ieee.{of_bits};
ghost use Rattle.tables.specs.Rows.{over, zeroed};
ghost use Rattle.tables.specs.Mesh.{mesh_of, point_rows, edge_rows, face_rows};

// The numbers of a position, and the places of y and z among them.
pub const POSITION_WIDTH: usize = 3;

pub const Y_NUMBER: usize = 1;

pub const Z_NUMBER: usize = 2;

// The words of a point, and their places behind the valence.
pub const POINT_WIDTH: usize = 3;

pub const START_WORD: usize = 1;

pub const MARK_WORD: usize = 2;

// The words of an edge, and their places behind the origin.
pub const EDGE_WIDTH: usize = 8;

pub const DEST_WORD: usize = 1;

pub const LEFT_FACE_WORD: usize = 2;

pub const RIGHT_FACE_WORD: usize = 3;

pub const LEFT_CW_WORD: usize = 4;

pub const LEFT_ACW_WORD: usize = 5;

pub const RIGHT_CW_WORD: usize = 6;

pub const RIGHT_ACW_WORD: usize = 7;

// The words of a face, and the places of its four corners behind the start edge.
pub const FACE_WIDTH: usize = 5;

pub const FIRST_CORNER_WORD: usize = 1;

pub const SECOND_CORNER_WORD: usize = 2;

pub const THIRD_CORNER_WORD: usize = 3;

pub const FOURTH_CORNER_WORD: usize = 4;

// The most edges of a face, and the most points of a border, where the first four stand once more at the end.
pub const LONGEST_PERIMETER: usize = 64;

pub const LONGEST_BORDER: usize = LONGEST_PERIMETER + 4;

// The most points, edges and faces that a step makes.
pub const POINT_CEILING: usize = 65536;

pub const EDGE_CEILING: usize = 131072;

pub const FACE_CEILING: usize = 65536;

// How many points, edges and faces a mesh has.
#[derive(Clone, Copy)]
pub struct Counts {
    pub points: usize,
    pub edges: usize,
    pub faces: usize,
}

// How many points, faces and listed points the lists of a mesh or a text have, or may have.
#[derive(Clone, Copy)]
pub struct Sizes {
    pub points: usize,
    pub faces: usize,
    pub listed: usize,
}

// The five tables of a mesh, lent to be read.
#[derive(Clone, Copy)]
pub struct MeshTables<'a> {
    pub positions: &'a [f64],
    pub points: &'a [u32],
    pub edges: &'a [u32],
    pub intervals: &'a [f64],
    pub faces: &'a [u32],
}

// A row number as an index. No `From` leads from u32 to usize, and `try_from` would ask each caller for what to do where it fails, which it
// does not.
pub fn index(row: u32) -> usize
    ensures { result ≡ row }
{
    row as usize
}

// How many whole control points the two tables hold.
pub fn point_rows(positions: &[f64], points: &[u32]) -> usize
    ensures { result ≡ point_rows (mesh_of positions.now points.now [] [] []) }
{
    (positions.len() / POSITION_WIDTH).min(points.len() / POINT_WIDTH)
}

// How many whole edges the two tables hold.
pub fn edge_rows(edges: &[u32], intervals: &[f64]) -> usize
    ensures { result ≡ edge_rows (mesh_of [] [] edges.now intervals.now []) }
{
    (edges.len() / EDGE_WIDTH).min(intervals.len())
}

// How many whole faces the table holds.
pub fn face_rows(faces: &[u32]) -> usize
    ensures { result ≡ face_rows (mesh_of [] [] [] [] faces.now) }
{
    faces.len() / FACE_WIDTH
}

// Makes the first n elements the one that is handed in.
pub fn fill_first<T: Copy>(elements: &mut [T], n: usize, value: T)
    requires { n ≤ length elements.old }
    ensures { elements.new ≡ zeroed n value elements.old }
{
    for element in &mut elements[..n] {
        *element = value;
    }
}

// Copies the first n elements.
pub fn copy_first<T: Copy>(new: &[T], elements: &mut [T], n: usize)
    requires n_in_bounds { n ≤ length new.now }
    requires n_in_bounds_2 { n ≤ length elements.old }
    ensures { elements.new ≡ over n new.now elements.old }
{
    // By their places, and no `copy_from_slice`: the compiler then knows that the two are apart, and an archive for C calls `memcpy` and
    // no `memmove`.
    for i in 0..n {
        elements[i] = new[i];
    }
}
