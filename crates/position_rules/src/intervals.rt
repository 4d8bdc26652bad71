// The intervals about the ends of an edge, under the names that equations 13 to 19 give them. `c1` and `c2` stand beside `a1` and `a2`: the
// pairs differ in the step alone, and one function with the step handed in would be no shorter at any place that calls it.
ghost use Rattle.std.specs.Prelude.{◌≡◌, ◌+◌, ◌*◌, ◌≤◌, length};
ghost use Rattle.tables.specs.Layout.{edge_width};
ghost use Rattle.position_rules.specs.Intervals.{acw_about, cw_about, A1, A2, C1, C2, three_terms};
ghost use Rattle.position_rules.specs.Fits.{EdgeFits};

use edge_ends::TnurccVertexEnd;
use records::load_edge_words;
use tables::index;
use walks::acw_of_point;

// The edge one step anticlockwise about p from e.
pub fn acw_about(edges: &[u32], p: usize, e: usize) -> usize
    requires { e * edge_width + edge_width ≤ length edges.now }
    ensures { result ≡ acw_about edges.now p e }
{
    index(acw_of_point(edges, p, e))
}

// The edge one step clockwise about p from e.
fn cw_about(edges: &[u32], p: usize, e: usize) -> usize
    requires { e * edge_width + edge_width ≤ length edges.now }
    ensures { result ≡ cw_about edges.now p e }
{
    let edge = load_edge_words(edges, e);
    if index(edge.origin) == p {
        return index(edge.cw_edge_from_end(TnurccVertexEnd::Origin));
    }
    index(edge.cw_edge_from_end(TnurccVertexEnd::Dest))
}

// The interval after one step anticlockwise about p from e.
pub fn a1(edges: &[u32], intervals: &[f64], p: usize, e: usize) -> f64
    requires { EdgeFits edges.now intervals.now e }
    ensures { result ≡ A1 edges.now intervals.now p e }
{
    let r = acw_about(edges, p, e);
    intervals[r]
}

// The interval after two steps anticlockwise about p from e.
pub fn a2(edges: &[u32], intervals: &[f64], p: usize, e: usize) -> f64
    requires { EdgeFits edges.now intervals.now e }
    ensures { result ≡ A2 edges.now intervals.now p e }
{
    a1(edges, intervals, p, acw_about(edges, p, e))
}

// The interval after one step clockwise about p from e.
pub fn c1(edges: &[u32], intervals: &[f64], p: usize, e: usize) -> f64
    requires { EdgeFits edges.now intervals.now e }
    ensures { result ≡ C1 edges.now intervals.now p e }
{
    let r = cw_about(edges, p, e);
    intervals[r]
}

// The interval after two steps clockwise about p from e.
pub fn c2(edges: &[u32], intervals: &[f64], p: usize, e: usize) -> f64
    requires { EdgeFits edges.now intervals.now e }
    ensures { result ≡ C2 edges.now intervals.now p e }
{
    c1(edges, intervals, p, cw_about(edges, p, e))
}

// d + A2 + C2 of e about p.
pub fn three_terms(edges: &[u32], intervals: &[f64], p: usize, e: usize) -> f64
    requires { EdgeFits edges.now intervals.now e }
    ensures { result ≡ three_terms edges.now intervals.now p e }
{
    let a = a2(edges, intervals, p, e);
    let c = c2(edges, intervals, p, e);
    intervals[e] + a + c
}
