// A mesh as it is passed in.

// The numbers of vertices and faces and the three lists (rules M1 to M4).
#[derive(Clone, Copy)]
pub struct MeshLists<'a> {
    pub vertices: usize,
    pub faces: usize,
    // x, y and z of each vertex in micrometres: 3 for each.
    pub positions: &'a [i32],
    // 0 or 1 for each vertex, smooth or corner.
    pub tags: &'a [u8],
    // The vertex of each corner, face by face and counterclockwise: 4 for each face.
    pub indices: &'a [u16],
}
