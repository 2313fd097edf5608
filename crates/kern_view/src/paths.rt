// Which texts are paths.
ghost use Rattle.std.specs.Prelude.{◌≡◌, ◌==◌, ◌&&◌, not, length};
ghost use Rattle.std.specs.List.{list_all};
ghost use Rattle.tr_types.specs.Paths.{parts_of};
ghost use Rattle.tr_types.specs.Paths as spec;

/// Whether a text is a path: `/`, or names that each stand after a `/`.
pub fn is_path_text(path: &[u8]) -> bool
    ensures { result ≡ spec.is_path_text path.now }
{
    path == b"/".as_slice() || are_names_after(path)
}

// Whether nothing stands before the first `/`, and a name after each one.
fn are_names_after(path: &[u8]) -> bool
    ensures { result ≡ spec.are_names_after (parts_of path.now) }
{
    match path {
        [b'/', names @ ..] => are_names(names),
        _ => false,
    }
}

// Whether all that stands between slashes is a name.
fn are_names(names: &[u8]) -> bool
    ensures { result ≡ list_all spec.is_name_text (parts_of names.now) }
{
    names.split(|&byte| byte == b'/').all(is_name_text)
}

fn is_name_text(name: &[u8]) -> bool
    ensures { result ≡ spec.is_name_text name.now }
{
    has_name_bytes(name) && name != b".".as_slice() && name != b"..".as_slice()
}

fn has_name_bytes(name: &[u8]) -> bool
    ensures { result ≡ (not (length name.now == 0) && list_all spec.is_name_byte name.now) }
{
    !name.is_empty() && name.iter().all(|&byte| is_name_byte(byte))
}

fn is_name_byte(byte: u8) -> bool
    ensures { result ≡ spec.is_name_byte byte }
{
    byte.is_ascii_graphic() && byte != b'/'
}
