// The counts of an accepted mesh, from its twins.
ghost use Rattle.std.specs.Prelude.{◌≡◌, ltb, length};
ghost use Rattle.finite.specs.Fold.{count_below};
ghost use Rattle.mesh.specs.Tables.{twin_of};

// How many half-edges come before their twins: one for each edge, since "no twin" is above them all.
pub(crate) fn count_edges(twins: &[u16]) -> usize
    ensures { result ≡ count_below (λ c. ltb c (twin_of twins.now c)) (length twins.now) }
{
    // A sum, and no `filter(..).count()`: that is a jump for each half-edge which nothing foretells, and the check of a mesh missed its bar of speed with it.
    let mut count = 0;
    for (c, d) in twins.iter().enumerate() {
        count += usize::from(c < usize::from(*d));
    }
    count
}
