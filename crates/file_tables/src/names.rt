//! The names of a path, one by one.

ghost use Rattle.std.specs.Prelude.{◌≡◌, ◌<◌, ◌≤◌, ◌∷◌, [], false, length, take, drop, MatchOption};
ghost use Rattle.file_tables.specs.Names.{ends_with_slash, is_absolute, names_of};

/// The byte `/`.
const SLASH: u8 = 47;

/// Whether a path begins at the root.
pub fn is_absolute(path: &[u8]) -> bool
    ensures { result ≡ is_absolute path.now }
{
    match path {
        [] => false,
        [first, ..] => *first == SLASH,
    }
}

/// Whether a path must name a directory.
#[tactic(auto, using(crate::proofs::Slashes::no_end, crate::proofs::Slashes::last_end))]
pub fn ends_with_slash(path: &[u8]) -> bool
    ensures { result ≡ ends_with_slash path.now }
{
    if path.is_empty() {
        return false;
    }
    path[path.len() - 1] == SLASH
}

/// What stands behind the slashes at the front.
#[tactic(auto, unfolding(crate::specs::Names::names_from))]
fn without_slashes(path: &[u8]) -> &[u8]
    ensures names { names_of result.now ≡ names_of path.now }
    ensures front { is_absolute result.now ≡ false }
    ensures most { length result.now ≤ length path.now }
{
    let mut rest = path;
    while let [SLASH, others @ ..] = rest {
        rest = others;
    }
    rest
}

/// How many bytes stand before the first slash of bytes that don't begin with one.
#[tactic(auto, using(crate::proofs::Slashes::name_first, crate::proofs::Slashes::name_more, crate::proofs::Slashes::name_end, crate::proofs::Slashes::name_all))]
fn name_length(path: &[u8]) -> usize
    requires some { 0 < length path.now }
    requires front { is_absolute path.now ≡ false }
    ensures some { 0 < result }
    ensures most { result ≤ length path.now }
    ensures names { names_of path.now ≡ take result path.now ∷ names_of (drop result path.now) }
{
    let mut end = 1;
    while end < path.len() {
        if path[end] == SLASH {
            return end;
        }
        end += 1;
    }
    end
}

/// The first name of a path, and what stands behind it.
#[tactic(auto, using(crate::proofs::Slashes::no_names))]
pub(crate) fn next_name(path: &[u8]) -> Option<(&[u8], &[u8])>
    ensures names { MatchOption result (names_of path.now ≡ []) (λ r. names_of path.now ≡ r.0.now ∷ names_of r.1.now) }
    ensures shorter { MatchOption result (path.now ≡ path.now) (λ r. length r.1.now < length path.now) }
{
    let rest = without_slashes(path);
    if rest.is_empty() {
        return None;
    }
    let end = name_length(rest);
    Some((&rest[..end], &rest[end..]))
}
