/// A node on the way down a tree, and the place in it where the way goes on. A path has the leaf first: the waypoint at `h` has
/// `h` levels under it.
#[derive(Clone, Copy)]
pub struct Waypoint {
    pub node: u16,
    pub place: u8,
}
