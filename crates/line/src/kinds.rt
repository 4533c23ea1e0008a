// The kinds of files from which a shape is loaded.
// A word of the program names one of them.

// A scanner's binary STL (request W2), or a pattern shop's OFF text (request W7).
#[derive(Clone, Copy)]
pub enum FileKind {
    Stl,
    Off,
}
