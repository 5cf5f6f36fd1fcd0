//! Lists of names, each with what it stands for.

ghost use Rattle.std.specs.Prelude.{◌≡◌};
ghost use Rattle.lgp_text.specs.NamedValues.{named, pairs_of};

/// A name and what it stands for.
pub type Named<T> = (&'static [u8], T);

/// What a name of a list stands for.
pub fn value_named<T: Copy>(names: &[Named<T>], name: &[u8]) -> Option<T>
    ensures { result ≡ named (pairs_of names.now) name.now }
{
    for known in names {
        if name == known.0 {
            return Some(known.1);
        }
    }
    None
}
