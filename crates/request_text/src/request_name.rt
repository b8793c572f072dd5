//! The names of requests.

ghost use Rattle.std.specs.Prelude.{◌≡◌};
ghost use Rattle.request_text.specs.Scripts.{entry_of, request_names};

/// The word that says what a line asks.
#[derive(Clone, Copy)]
pub enum RequestName {
    Begin,
    Commit,
    Abort,
    Vertex,
    Set,
    Get,
    Drop,
    Put,
    Del,
    Edge,
    Scan,
    Labels,
    Compact,
}

/// The request that a word names; none where it names none.
pub fn request_name(word: &[u8]) -> Option<RequestName>
    ensures { entry_of request_names word.now ≡ result }
{
    Some(match word {
        b"begin" => RequestName::Begin,
        b"commit" => RequestName::Commit,
        b"abort" => RequestName::Abort,
        b"vertex" => RequestName::Vertex,
        b"set" => RequestName::Set,
        b"get" => RequestName::Get,
        b"drop" => RequestName::Drop,
        b"put" => RequestName::Put,
        b"del" => RequestName::Del,
        b"edge" => RequestName::Edge,
        b"scan" => RequestName::Scan,
        b"labels" => RequestName::Labels,
        b"compact" => RequestName::Compact,
        _ => return None,
    })
}
