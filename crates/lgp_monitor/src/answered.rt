//! What an answer is beside its text.

ghost use Rattle.std.specs.Prelude.{◌≡◌, ◌&&◌, not};

/// What an answer is beside its text.
#[derive(Clone, Copy)]
pub struct Answered {
    /// Whether the line is refused. Its reply says why, and the lines of a script that it stood for are in the transcript.
    pub is_refused: bool,
    /// Whether each line of its reply is an object of JSON. The reply of a refused line has none.
    pub has_objects: bool,
}

impl Answered {
    /// A line is refused or not, and what it asks for has objects or not.
    pub(crate) fn of(is_refused: bool, has_objects: bool) -> Answered
        ensures { result ≡ record {
          is_refused = is_refused;
          has_objects = not is_refused && has_objects;
        } }
    {
        Answered {
            is_refused,
            has_objects: !is_refused && has_objects,
        }
    }
}
