//! The names of files.

ghost use Rattle.std.specs.Prelude.{◌≡◌};
ghost use Rattle.std.specs.Option.{option_map};
ghost use Rattle.text_edl.specs.EditList.{name_of};

use mt_op::Digest;

/// The name of a recording's file.
#[derive(Clone, Copy)]
pub struct Named<'a> {
    /// The digest of the file.
    pub source: Digest,
    /// Its name.
    pub name: &'a str,
}

/// The name of the first file that has this digest.
pub(crate) fn name_of<'a>(names: &[Named<'a>], source: Digest) -> Option<&'a str>
    ensures { option_map (λ name. name.now) result ≡ name_of names.now source }
{
    for named in names {
        if named.source.cmp(&source).is_eq() {
            return Some(named.name);
        }
    }
    None
}
