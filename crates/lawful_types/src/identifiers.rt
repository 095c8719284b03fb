//! Whether octets are the contents of an OBJECT IDENTIFIER.

ghost use Rattle.std.specs.Prelude.{◌≡◌, ◌<◌, ◌≤◌, ◌^◌, option_map, IfSome};
ghost use Rattle.rasn_types.specs.Contents.{is_identifier, next_arc};
ghost use Rattle.lawful_types.specs.Subidentifiers.{arc_of};

/// The number that a subidentifier may not reach.
const LIMIT: u64 = 1 << 32;

/// The number that the first subidentifier may not reach: 80 more than a second arc below the first arc 2 (X.690
/// 8.19.4).
const FIRST_LIMIT: u64 = LIMIT + 80;

/// How far a subidentifier is read (X.690 8.19.2).
#[derive(Clone, Copy)]
struct Subidentifier {
    /// Whether it has begun.
    begun: bool,
    /// Its number so far.
    value: u64,
    /// The number that it may not reach.
    limit: u64,
}

/// Whether octets are the contents of an OBJECT IDENTIFIER (X.690 8.19). It takes no memory.
pub(crate) fn are_contents(octets: &[u8]) -> bool
    ensures { result ≡ is_identifier octets.now }
{
    let mut read = Subidentifier {
        begun: false,
        value: 0,
        limit: FIRST_LIMIT,
    };
    for octet in octets {
        let Some(next) = next(read, *octet) else {
            return false;
        };
        read = next;
    }
    !octets.is_empty() && !read.begun
}

/// How far a subidentifier is read after one more octet, or the one after it. `None` where the octet may not be
/// there: its number would be too large, or it begins with the octet 80 (X.690 8.19.2).
fn next(read: Subidentifier, octet: u8) -> Option<Subidentifier>
    requires below { read.value < read.limit }
    requires limited { read.limit ≤ 2 ^ 33 }
    ensures next { option_map arc_of result ≡ next_arc (arc_of read) octet }
    ensures below { IfSome result (λ next. next.value < next.limit) }
    ensures limited { IfSome result (λ next. next.limit ≤ 2 ^ 33) }
{
    let value = 128 * read.value + (octet % 128) as u64;
    if value >= read.limit {
        return None;
    }
    if !read.begun && octet == 128 {
        return None;
    }
    if octet < 128 {
        return Some(Subidentifier {
            begun: false,
            value: 0,
            limit: LIMIT,
        });
    }
    Some(Subidentifier {
        begun: true,
        value,
        limit: read.limit,
    })
}
