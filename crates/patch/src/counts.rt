// What is read from the tags, the faces and the twins of an accepted mesh, once: the rule of each vertex, of each corner its weight and which of its
// neighbours are far ends of sharp edges, and the link of each half-edge.
ghost use Rattle.std.specs.Prelude.{◌≡◌, ◌≤◌, ◌<◌, eqb, length, get_or};
ghost use Rattle.finite.specs.Filled.{filled};
ghost use Rattle.limits.specs.Limits.{max_vertices};
ghost use Rattle.mesh.specs.Tables.{twin_of};
ghost use Rattle.patch.specs.Point.{weight};
ghost use Rattle.patch.specs.Lists.{shape_of, boundary_in, ends, next_counts, prev_counts, ends_in};
ghost use Rattle.patch.specs.PatchTables.{Counts, ForCounts, ForWeights, ForRules, ForEnds, ForRender, Rendered, rule_by, tagged_shape};

use corner::prev_corner;
use limits::model::Mesh;

// The counts of each vertex: two lists of numbers, since `Counts` says of each alone what it counts.
#[derive(Drop)]
pub(crate) struct VertexCounts {
    // How many faces it has.
    pub valences: [u16; Mesh::MAX_VERTICES],
    // How many boundary half-edges leave it.
    pub leaving: [u16; Mesh::MAX_VERTICES],
}

// Which neighbours of a corner count as far ends of sharp edges. No pair of bools: the table by corner takes a byte each, and no more of the stack than
// include/rusketja.h says.
#[derive(Clone, Copy, Debug, PartialEq, Eq)]
pub(crate) enum Ends {
    Neither,
    Next,
    Prev,
    Both,
}

impl Ends {
    // Those of a corner whose next and previous vertices count or not.
    fn of(next: bool, prev: bool) -> Ends
        ensures { result ≡ ends next prev }
    {
        if next {
            if prev { Ends::Both } else { Ends::Next }
        } else if prev {
            Ends::Prev
        } else {
            Ends::Neither
        }
    }

    // Whether the next vertex counts.
    pub(crate) fn next(self) -> bool
        ensures { result ≡ next_counts self }
    {
        matches!(self, Ends::Next | Ends::Both)
    }

    // Whether the previous vertex counts.
    pub(crate) fn prev(self) -> bool
        ensures { result ≡ prev_counts self }
    {
        matches!(self, Ends::Prev | Ends::Both)
    }
}

// Whether half-edge c has no twin: the list of twins has 65535 there (rule T9). Where it has none, it takes the boundary rule.
fn is_boundary(twins: &[u16], c: usize) -> bool
    requires { c < length twins.now }
    ensures { result ≡ boundary_in twins.now c }
{
    twins[c] == Mesh::NO_TWIN
}

// Counts the faces of each vertex, and the boundary half-edges that leave it.
fn count_faces(faces: &[u16], twins: &[u16]) -> VertexCounts
    requires { ForCounts faces.now twins.now }
    ensures { Counts (shape_of faces.now) result.valences result.leaving }
{
    let mut counts = VertexCounts {
        valences: [0; Mesh::MAX_VERTICES],
        leaving: [0; Mesh::MAX_VERTICES],
    };
    for (c, p) in faces.iter().enumerate() {
        let p = usize::from(*p);
        counts.valences[p] += 1;
        counts.leaving[p] += u16::from(is_boundary(twins, c));
    }
    counts
}

impl VertexCounts {
    // Whether vertex p is inside: no boundary half-edge leaves it.
    fn inside(&self, p: usize) -> bool
        requires { p < max_vertices }
        ensures { result ≡ eqb (get_or self.now.leaving p 0) 0 }
    {
        self.leaving[p] == 0
    }

    // Writes the weight of each corner.
    fn fill_weights(&self, faces: &[u16], weights: &mut [u16])
        requires { ForWeights faces.now self.now.valences self.now.leaving weights.old }
        ensures { weights.new ≡ filled (weight (shape_of faces.now)) (length faces.now) weights.old }
    {
        for (c, weight) in weights[..faces.len()].iter_mut().enumerate() {
            let p = usize::from(faces[c]);
            *weight = mask::corner_weight(self.inside(p), self.valences[p]) as u16;
        }
    }

    // Writes the rule of each vertex.
    fn fill_rules(&self, tags: &[u8], rules: &mut [u8])
        requires { ForRules tags.now self.now.valences rules.old }
        ensures { rules.new
            ≡ filled (rule_by tags.now self.now.valences self.now.leaving) (length tags.now) rules.old }
    {
        for (p, rule) in rules[..tags.len()].iter_mut().enumerate() {
            *rule = mask::corner_rule(self.inside(p), tags[p], self.valences[p]) as u8;
        }
    }
}

// Writes which neighbours of each of n corners are far ends of sharp edges: the next vertex where the half-edge is sharp, the previous one where
// the half-edge before has no twin that would count it.
fn fill_ends(twins: &[u16], n: usize, ends: &mut [Ends])
    requires { ForEnds twins.now n ends.old }
    ensures { ends.new ≡ filled (ends_in twins.now) n ends.old }
{
    for (c, place) in ends[..n].iter_mut().enumerate() {
        let before = prev_corner(c);
        let enters = is_boundary(twins, before);
        *place = Ends::of(is_boundary(twins, c), enters);
    }
}

// Writes the link of each of n half-edges: its twin, or 65535 for none, as the list of twins has it.
pub(crate) fn fill_links(twins: &[u16], n: usize, links: &mut [u16])
    requires { (n ≤ length twins.now) × (n ≤ length links.old) }
    ensures { links.new ≡ filled (twin_of twins.now) n links.old }
{
    links[..n].copy_from_slice(&twins[..n]);
}

// Writes the rule of each vertex, and of each corner its weight and its far ends of sharp edges: all that is kept of the tags and the counts.
pub(crate) fn render(
    tags: &[u8],
    faces: &[u16],
    twins: &[u16],
    rules: &mut [u8],
    weights: &mut [u16],
    ends: &mut [Ends],
)
    requires { ForRender tags.now faces.now twins.now rules.old weights.old ends.old }
    ensures { Rendered (tagged_shape tags.now faces.now) (length tags.now)
        rules.new weights.new ends.new }
{
    let counts = count_faces(faces, twins);
    counts.fill_weights(faces, weights);
    counts.fill_rules(tags, rules);
    fill_ends(twins, faces.len(), ends);
}
