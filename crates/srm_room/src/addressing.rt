//! Where a member may be reached.

ghost use Rattle.std.specs.Prelude.{◌≡◌, ◌≤◌, ◌&&◌, length, nat_le, nat_lt};
ghost use Rattle.std.specs.Char.{is_ascii_digit};
ghost use Rattle.std.specs.List.{list_all};
ghost use Rattle.srm_room.specs.Rooms.{is_address, has_form, is_host, is_host_byte, is_bracketed, is_ipv6_byte, is_port_text, no_port, port_behind, port_step};

/// What stands for no port.
const NO_PORT: u32 = 65_536;

/// Returns whether a text has the form of a member's address: `IPv4:port`, `[IPv6]:port` or `host:port`, with a port from 1 to 65,535. Whether there is such a host, the system
/// says.
pub fn is_address(text: &str) -> bool
    ensures { result ≡ is_address text.now }
{
    let bytes = text.as_bytes();
    has_form(bytes) && is_port(port_behind(bytes))
}

fn is_port(port: u32) -> bool
    ensures { result ≡ (nat_le 1 port && nat_lt port no_port) }
{
    1 <= port && port < NO_PORT
}

fn port_behind(text: &[u8]) -> u32
    ensures value { result ≡ port_behind no_port text.now }
{
    let mut port = NO_PORT;
    for b in text {
        port = port_step(port, *b);
    }
    port
}

fn port_step(port: u32, b: u8) -> u32
    requires { port ≤ no_port }
    ensures value { result ≡ port_step port b }
    ensures bound { result ≤ no_port }
{
    if b == b':' {
        0
    } else if b.is_ascii_digit() {
        (port * 10 + u32::from(b - b'0')).min(NO_PORT)
    } else {
        NO_PORT
    }
}

fn has_form(text: &[u8]) -> bool
    ensures { result ≡ has_form text.now }
{
    match text {
        [] => false,
        [first, rest @ ..] => {
            if *first == b'[' {
                is_bracketed(rest)
            } else {
                is_host_byte(*first) && is_host(rest)
            }
        }
    }
}

fn is_host(text: &[u8]) -> bool
    ensures { result ≡ is_host text.now }
{
    let mut rest = text;
    while let [first, behind @ ..] = rest {
        if *first == b':' {
            return are_digits(behind);
        }
        if !is_host_byte(*first) {
            return false;
        }
        rest = behind;
    }
    false
}

fn is_bracketed(text: &[u8]) -> bool
    ensures { result ≡ is_bracketed text.now }
{
    let mut rest = text;
    while let [first, behind @ ..] = rest {
        if *first == b']' {
            return is_port_text(behind);
        }
        if !is_ipv6_byte(*first) {
            return false;
        }
        rest = behind;
    }
    false
}

fn is_port_text(text: &[u8]) -> bool
    ensures { result ≡ is_port_text text.now }
{
    match text {
        [] => false,
        [first, rest @ ..] => *first == b':' && are_digits(rest),
    }
}

fn are_digits(text: &[u8]) -> bool
    ensures { result ≡ list_all is_ascii_digit text.now }
{
    let mut rest = text;
    while let [first, behind @ ..] = rest {
        if !first.is_ascii_digit() {
            return false;
        }
        rest = behind;
    }
    true
}

fn is_host_byte(b: u8) -> bool
    ensures { result ≡ is_host_byte b }
{
    b.is_ascii_alphanumeric() || b == b'-' || b == b'.' || b == b'_'
}

fn is_ipv6_byte(b: u8) -> bool
    ensures { result ≡ is_ipv6_byte b }
{
    b.is_ascii_hexdigit() || b == b':' || b == b'.' || b == b'%'
}
