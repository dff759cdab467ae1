//! What a member may be called.

ghost use Rattle.std.specs.Prelude.{◌≡◌, ◌&&◌, nat_le, length, not};
ghost use Rattle.std.specs.Char.{is_ascii_digit};
ghost use Rattle.std.specs.List.{list_all};
ghost use Rattle.std.specs.Str.{chars};
ghost use Rattle.srm_room.specs.Rooms.{is_name, is_name_char};

/// Characters of a name, at most.
const LONGEST_NAME: usize = 40;

/// Returns whether a member may have this name: 1 to 40 characters without space, control character or `=`, and not digits alone.
pub fn is_name(text: &str) -> bool
    ensures { result ≡ is_name text.now }
{
    is_short(text) && has_name_chars(text) && !is_number(text)
}

fn is_short(text: &str) -> bool
    ensures { result ≡ (nat_le 1 (length (chars text.now)) && nat_le (length (chars text.now)) 40) }
{
    let mut count: usize = 0;
    let mut rest = text.chars();
    while let Some(_c) = rest.next() {
        if count == LONGEST_NAME {
            return false;
        }
        count += 1;
    }
    count != 0
}

fn has_name_chars(text: &str) -> bool
    ensures { result ≡ list_all is_name_char (chars text.now) }
{
    let mut rest = text.chars();
    while let Some(c) = rest.next() {
        if !is_name_char(c) {
            return false;
        }
    }
    true
}

fn is_name_char(c: char) -> bool
    ensures { result ≡ is_name_char c }
{
    !c.is_whitespace() && !c.is_control() && c != '='
}

fn is_number(text: &str) -> bool
    ensures { result ≡ list_all is_ascii_digit (chars text.now) }
{
    let mut rest = text.chars();
    while let Some(c) = rest.next() {
        if !c.is_ascii_digit() {
            return false;
        }
    }
    true
}
