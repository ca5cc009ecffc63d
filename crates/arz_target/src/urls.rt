// The server that a URL names.
ghost use Rattle.std.specs.Prelude.{◌≡◌, option_map};
ghost use Rattle.std.specs.Option.{option_copied};
ghost use Rattle.std.specs.List.{list_all};
ghost use Rattle.std.specs.Char.{is_ascii_digit};
ghost use Rattle.arz_json.specs.Texts.{split_once};
ghost use Rattle.arz_target.specs.Urls.{address_of, authority_of, path_of, authority_in, address_with, is_host as is_host_text, is_host_byte as is_byte_of_host, port_of, is_port as is_port_text, base_of, without_slash as without_last_slash, is_base_byte as is_byte_of_base};
ghost use Rattle.arz_target.specs.Seen.{seen};

/// What a server URL names: a host, a port, and the path with which each target begins.
#[derive(Clone, Copy)]
pub struct ServerUrl<'a> {
    /// A registered name or an IPv4 address: 1 to 253 bytes.
    pub host: &'a str,
    /// The TCP port: 1 to 65535.
    pub port: u16,
    /// The path, without a `/` at its end: empty, or from a `/` on.
    pub base: &'a str,
}

/// What a URL `http://HOST[:PORT][/PATH]` names; none of any other text (OpenAPI 3.1.1, section 4.8.5; RFC 9110,
/// section 4.2.1). The port is 80 where none is written; one `/` at the end of the path is dropped.
#[tactic(auto, unfolding(crate::specs::Urls::address_of))]
pub fn server_url(url: &str) -> Option<ServerUrl<'_>>
    ensures { option_map seen result ≡ address_of url.now }
{
    match url.strip_prefix("http://") {
        None => None,
        Some(text) => {
            let (authority, path) = at_slash(text);
            with_base(authority, read_base(path))
        }
    }
}

// The authority, which ends at the first `/`, and the path from there on.
fn at_slash(text: &str) -> (&str, &str)
    ensures authority { result.0.now ≡ authority_of text.now }
    ensures path { result.1.now ≡ path_of text.now }
{
    match text.find('/') {
        Some(at) => text.split_at(at),
        None => (text, ""),
    }
}

fn with_base<'a>(authority: &'a str, base: Option<&'a str>) -> Option<ServerUrl<'a>>
    ensures { option_map seen result ≡ authority_in authority.now (split_once 58 authority.now) (option_copied base.entry) }
{
    match authority.split_once(':') {
        None => with_port(authority, Some(80), base),
        Some((host, digits)) => with_port(host, read_port(digits), base),
    }
}

fn with_port<'a>(host: &'a str, port: Option<u16>, base: Option<&'a str>) -> Option<ServerUrl<'a>>
    ensures { option_map seen result ≡ address_with host.now port (option_copied base.entry) }
{
    if !is_host(host) {
        return None;
    }
    match (port, base) {
        (Some(port), Some(base)) => Some(ServerUrl { host, port, base }),
        _ => None,
    }
}

fn read_port(digits: &str) -> Option<u16>
    ensures { result ≡ port_of digits.now }
{
    if is_port(digits.as_bytes()) {
        digits.parse().ok()
    } else {
        None
    }
}

// Whether these are one to five digits without a leading zero.
fn is_port(digits: &[u8]) -> bool
    ensures { result ≡ is_port_text digits.now }
{
    match digits {
        [] => false,
        [first, rest @ ..] => rest.len() <= 4 && *first != b'0' && are_digits(digits),
    }
}

fn are_digits(bytes: &[u8]) -> bool
    ensures { result ≡ list_all is_ascii_digit bytes.now }
{
    bytes.iter().all(u8::is_ascii_digit)
}

fn is_host(text: &str) -> bool
    ensures { result ≡ is_host_text text.now }
{
    1 <= text.len() && text.len() <= 253 && all_host_bytes(text.as_bytes())
}

fn all_host_bytes(bytes: &[u8]) -> bool
    ensures { result ≡ list_all is_byte_of_host bytes.now }
{
    bytes.iter().all(|b| is_host_byte(*b))
}

fn is_host_byte(byte: u8) -> bool
    ensures { result ≡ is_byte_of_host byte }
{
    byte.is_ascii_alphanumeric() || byte == b'.' || byte == b'-'
}

// The path without one `/` at its end, if its bytes are printable ASCII.
fn read_base(path: &str) -> Option<&str>
    ensures { option_copied result ≡ base_of path.now }
{
    if all_base_bytes(path.as_bytes()) {
        Some(without_slash(path))
    } else {
        None
    }
}

fn without_slash(path: &str) -> &str
    ensures { result.now ≡ without_last_slash path.now }
{
    match path.strip_suffix('/') {
        Some(front) => front,
        None => path,
    }
}

fn all_base_bytes(bytes: &[u8]) -> bool
    ensures { result ≡ list_all is_byte_of_base bytes.now }
{
    bytes.iter().all(|b| is_base_byte(*b))
}

fn is_base_byte(byte: u8) -> bool
    ensures { result ≡ is_byte_of_base byte }
{
    byte.is_ascii_graphic() && byte != b'?' && byte != b'#'
}
